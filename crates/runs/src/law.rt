//! A receiver that was worked, beside a new one.
ghost use Rattle.std.specs.Prelude.{◌≡◌, min, length, take};
ghost use Rattle.receiver.specs.Standing.{new_standing};
ghost use Rattle.runs.specs.Law.{Goes, Alike, AlwaysOfSequences, one_said, other_said};
ghost use Rattle.runs.specs.Runs.{ends, worked, given};

use crate::call::{Call, Heard};
use crate::hear::hear;
use crate::run::{renewed, run};
use channel::Channel;
use receiver::{Receiver, Settled};

/// What the settling of two receivers told, and to how many further calls their answers were written down.
#[derive(Clone, Copy)]
pub struct Compared {
    pub worked: Settled,
    pub renewed: Settled,
    pub heard: usize,
}

/// Works a receiver through calls and settles it. Gives a new receiver of another channel the depth and then the places that stand, and settles it. Gives
/// both the further calls, each with a list of bytes, as far as there is room to write down what they answer.
///
/// If the channels mean the same and the lists of bytes are equal, the two cannot be told apart from there on, whatever the calls.
pub fn compare<C: Channel + Drop, D: Channel + Drop>(
    channel: C,
    other: D,
    calls: &[Call],
    further: &[Call],
    bytes: &mut [u8],
    other_bytes: &mut [u8],
    heard: &mut [Heard],
) -> Compared
    ensures heard { result.heard ≡ min (length further.now) (length heard.old) }
    ensures worked { Goes (C.meaning channel) (ends (C.meaning channel) calls.now (new_standing (C.meaning channel))) (take result.heard further.now) result.worked (one_said result.heard heard.new) bytes.old bytes.new }
    ensures renewed { Goes (D.meaning other) (given (D.meaning other) (worked (C.meaning channel) calls.now)) (take result.heard further.now) result.renewed (other_said result.heard heard.new) other_bytes.old other_bytes.new }
    ensures alike { C.meaning channel ≡ D.meaning other → bytes.old ≡ other_bytes.old → Alike result.worked result.renewed (one_said result.heard heard.new) (other_said result.heard heard.new) bytes.new other_bytes.new }
    ensures sequences { AlwaysOfSequences (C.meaning channel) (worked (C.meaning channel) calls.now) }
{
    let mut one = Receiver::new(channel);
    run(&mut one, calls);
    let worked = one.settle();
    let mut two = renewed(&one, other);
    let renewed = two.settle();
    let heard = hear(&mut one, &mut two, further, bytes, other_bytes, heard);
    Compared {
        worked,
        renewed,
        heard,
    }
}
