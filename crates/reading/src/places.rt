//! Reading the places of a text.
ghost use Rattle.std.specs.Prelude.{OnOk};
ghost use Rattle.reading.specs.Received.{state_of, StaysBegun, ReadsPlaces};

use crate::add::add_line;
use kinds::Spelled;
use receiver::Receiver;
use text::{Fault, Lines};

/// The lines from the third on, where both heads stand: places, each added in turn.
pub(crate) fn read_places<C: Spelled>(receiver: &mut Receiver<C>, text: &[u8]) -> Result<(), Fault>
    ensures does { ReadsPlaces C.Spelled.rule C.Spelled.form text.now receiver.old receiver.new result }
    ensures begun { OnOk result (StaysBegun receiver.old receiver.new) }
{
    for (i, line) in Lines::of(text).enumerate() {
        add_line(receiver, line, i + 3)?;
    }
    Ok(())
}
