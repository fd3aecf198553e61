//! One call, given to a receiver as a value.
ghost use Rattle.std.specs.Prelude.{◌≡◌};
ghost use Rattle.runs.specs.Obeying.{Obeyed};

use crate::call::{Answer, Call};
use burst::Refusal;
use channel::Channel;
use receiver::Receiver;

// Does what a call says. A reading that writes bytes writes them into the list.
pub(crate) fn obey<C: Channel>(
    receiver: &mut Receiver<C>,
    call: Call,
    bytes: &mut [u8],
) -> Result<Answer, Refusal>
    ensures channel { receiver.new.channel ≡ receiver.old.channel }
    ensures obeyed { Obeyed (C.meaning receiver.old.channel) call receiver.old.burst receiver.new.burst bytes.old bytes.new result }
{
    match call {
        Call::Add(place) => receiver.add(place).map(|()| Answer::Done),
        Call::Retake(place, sample) => receiver.retake(place, sample).map(|()| Answer::Done),
        Call::Reweigh(place, priors) => receiver.reweigh(place, priors).map(|()| Answer::Done),
        Call::Cut(n) => receiver.cut(n).map(|()| Answer::Done),
        Call::Depth(depth) => receiver.set_depth(depth).map(|()| Answer::Done),
        Call::Settle => Ok(Answer::Settled(receiver.settle())),
        Call::Cost(place, value) => receiver.cost(place, value).map(Answer::Cost),
        Call::Lean(place, value) => receiver.lean(place, value).map(Answer::Lean),
        Call::Symbol(place) => receiver.symbol(place).map(Answer::Symbol),
        Call::Shown => receiver.shown(bytes).map(|()| Answer::Done),
        Call::Marks => Ok(Answer::Marks(receiver.marks())),
    }
}
