//! Writing the text of a receiver.
ghost use Rattle.std.specs.Prelude.{◌≡◌, ◌*◌, ◌≤◌, ◌++◌, length, IfErr};
ghost use Rattle.burst.specs.Refusals.{number_of};
ghost use Rattle.forms.specs.Forms.{text_of};
ghost use Rattle.writing.specs.Drafts.{Room, Stands};
ghost use Rattle.writing.specs.Written.{places_text, receiver_text};

use crate::draft::Draft;
use crate::inscribed::Inscribed;
use crate::line::put_line;
use crate::places::{DepthLine, PlaceLine};
use burst::{Place, Refusal};
use channel::Channel;
use receiver::Receiver;

// The line of a channel, of at most 6,800 bytes.
fn put_channel<C: Inscribed>(draft: &mut Draft, channel: &C)
    requires { Room 6800 draft.old }
    ensures text { draft.new ≡ draft.old ++ text_of (C.Spelled.form channel.now) }
    ensures short { length (text_of (C.Spelled.form channel.now)) ≤ 6800 }
{
    let mut line = [0; 6800];
    if let Ok(len) = channel.write_line(&mut line) {
        draft.put(&line[..len]);
    }
}

// The lines of places with the priors of the first so many values, of at most 160 bytes each.
fn put_places(draft: &mut Draft, places: &[Place], values: usize)
    requires { Room (160 * length places.now) draft.old }
    ensures { draft.new ≡ draft.old ++ places_text values places.now }
{
    for place in places {
        put_line(draft, &PlaceLine { place, values });
    }
}

// The text of a receiver in a draft.
fn drafted<C: Inscribed>(receiver: &Receiver<C>) -> Draft
    ensures { result ≡ receiver_text C.Spelled.form C.Channel.symbols receiver.now }
{
    let mut draft = Draft::new();
    put_channel(&mut draft, receiver.channel());
    put_line(&mut draft, &DepthLine(receiver.depth()));
    put_places(&mut draft, receiver.places(), C::alphabet());
    draft
}

/// Writes the text of a receiver at the front of a list, and answers its length; or refuses and leaves the list, if that is too short.
pub fn write_text<C: Inscribed>(receiver: &Receiver<C>, out: &mut [u8]) -> Result<usize, Refusal>
    ensures stands { Stands (receiver_text C.Spelled.form C.Channel.symbols receiver.now) out.old out.new result }
    ensures refused { IfErr result (λ e. number_of e ≡ 11) }
{
    drafted(receiver)
        .hand_over(out)
        .map_err(|_| Refusal::TooShort)
}
