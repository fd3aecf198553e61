//! Reading a whole text.
ghost use Rattle.std.specs.Prelude.{IfOk, OnOk};
ghost use Rattle.reading.specs.Received.{Begun, ReadsNew, Reads};
ghost use Rattle.reading.specs.Texts.{TextHasOneAnswer};

use crate::both::read_heads;
use crate::places::read_places;
use kinds::Spelled;
use receiver::Receiver;
use text::{Cause, Fault, MOST_BYTES, Malformed, cut_line};

// The receiver of a text.
fn read_new<C: Spelled + Drop>(text: &[u8]) -> Result<Receiver<C>, Fault>
    ensures reads { ReadsNew C.Spelled.rule C.Spelled.form text.now result }
    ensures begun { IfOk result Begun }
    ensures one { TextHasOneAnswer }
{
    if text.len() > MOST_BYTES {
        return Err(Cause::Text(Malformed::TooLong).at(1));
    }
    let (first, rest) = cut_line(text);
    let (second, places) = cut_line(rest);
    let mut receiver = read_heads::<C>(first, second)?;
    read_places(&mut receiver, places)?;
    Ok(receiver)
}

/// Reads a text into a receiver: its channel, depth and places become those of the text. A text with a fault is refused with the first, and leaves the receiver
/// as it was.
pub fn read_text<C: Spelled + Drop>(receiver: &mut Receiver<C>, text: &[u8]) -> Result<(), Fault>
    ensures reads { Reads C.Spelled.rule C.Spelled.form text.now receiver.old receiver.new result }
    ensures begun { OnOk result (Begun receiver.new) }
    ensures one { TextHasOneAnswer }
{
    *receiver = read_new(text)?;
    Ok(())
}
