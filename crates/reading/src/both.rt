//! Reading both heads of a text.
ghost use Rattle.std.specs.Prelude.{IfOk};
ghost use Rattle.reading.specs.Received.{Begun, ReadsHeads};

use crate::first::First;
use crate::heads::read_first;
use crate::second::{read_channel_line, read_depth};
use kinds::Spelled;
use receiver::Receiver;
use text::Fault;

/// The first two lines, which are the heads in either order, and the receiver of both.
pub(crate) fn read_heads<C: Spelled + Drop>(
    first: &[u8],
    second: &[u8],
) -> Result<Receiver<C>, Fault>
    ensures does { ReadsHeads C.Spelled.rule C.Spelled.form first.now second.now result }
    ensures begun { IfOk result Begun }
{
    match read_first::<C>(first).map_err(|cause| cause.at(1))? {
        First::Channel(channel) => read_depth(channel, second).map_err(|cause| cause.at(2)),
        First::Depth(depth) => read_channel_line(depth, second),
    }
}
