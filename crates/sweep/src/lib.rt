//! The sweep: under any joining, what all sequences of a burst are worth, by history and by symbol; and the pinning of a place.
#![tactic(auto)]

ghost use Rattle.std.specs.Prelude.{◌≡◌, length, OnOk};
ghost use Rattle.burst.specs.Refusals.{refused_by};
ghost use Rattle.sweep.specs.Checks.{sweep_refusal};
ghost use Rattle.sweep.specs.Lists.{ForwardStands, BackwardStands, AnswersStand};
ghost use Rattle.sweep.specs.Own.{OwnWindows};

use burst::{Place, Refusal};
use channel::Channel;
use full::{Columns, FullTrellis, Lengths};
use joining::Joining;

mod full;
mod joins;
mod pins;

pub use pins::pin;

/// Fills three lists with what the sequences of a burst are worth, at full memory.
///
/// With n histories and M symbols, the element of history s in column k stands at k·n + s of the forward and the backward list, for k from 0 to the
/// number of places, and the answer for symbol a at place k at k·M + a. A forward element joins the choices of the symbols before place k that leave
/// history s, a backward element the choices of those from place k on, and an answer the sequences with a at k. Elements past those keep their contents,
/// and a refused sweep writes none.
pub fn sweep<C: Channel, J: Joining>(
    channel: &C,
    places: &[Place],
    forward: &mut [J],
    backward: &mut [J],
    answers: &mut [J],
) -> Result<(), Refusal>
    ensures refusal { refused_by result ≡ sweep_refusal (C.meaning channel.now) places.now (length forward.old) (length backward.old) (length answers.old) }
    ensures forward { ForwardStands J.operations J.worth_of (C.meaning channel.now) places.now result forward.old forward.new }
    ensures backward { BackwardStands J.operations J.worth_of (C.meaning channel.now) places.now result backward.old backward.new }
    ensures answers { AnswersStand J.operations J.worth_of (C.meaning channel.now) places.now result answers.old answers.new }
    ensures own { OnOk result (OwnWindows J.operations J.worth_of (C.meaning channel.now) places.now) }
{
    let lengths = Lengths {
        forward: forward.len(),
        backward: backward.len(),
        answers: answers.len(),
    };
    let trellis = FullTrellis::checked(channel, places, lengths)?;
    trellis.fill_forward(forward);
    trellis.fill_backward(backward);
    let columns = Columns {
        trellis: &trellis,
        forward,
        backward,
    };
    columns.fill_answers(answers);
    Ok(())
}
