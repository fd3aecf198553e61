//! The same calls, given to two receivers.
ghost use Rattle.std.specs.Prelude.{◌≡◌, min, length, take};
ghost use Rattle.runs.specs.Law.{one_said, other_said};
ghost use Rattle.runs.specs.Obeying.{Hears};

use crate::call::{Call, Heard};
use crate::obey::obey;
use channel::Channel;
use receiver::Receiver;

// Gives two receivers the same calls, each with a list of bytes, and writes down what they answer as far as there is room for it. Tells how many calls that were.
pub(crate) fn hear<C: Channel, D: Channel>(
    one: &mut Receiver<C>,
    other: &mut Receiver<D>,
    list: &[Call],
    bytes: &mut [u8],
    other_bytes: &mut [u8],
    heard: &mut [Heard],
) -> usize
    ensures asked { result ≡ min (length list.now) (length heard.old) }
    ensures one { Hears (C.meaning one.old.channel) (take result list.now) one.old.burst one.new.burst bytes.old bytes.new (one_said result heard.new) }
    ensures other { Hears (D.meaning other.old.channel) (take result list.now) other.old.burst other.new.burst other_bytes.old other_bytes.new (other_said result heard.new) }
{
    let n = list.len().min(heard.len());
    for (i, call) in list[..n].iter().enumerate() {
        heard[i] = Heard {
            one: obey(one, *call, bytes),
            other: obey(other, *call, other_bytes),
        };
    }
    n
}
