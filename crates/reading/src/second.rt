//! Reading the second head of a text.
ghost use Rattle.std.specs.Prelude.{◌≡◌, IfOk};
ghost use Rattle.reading.specs.Lines.{At, AtLine, ReadsChannel, ReadsSecond};
ghost use Rattle.reading.specs.Received.{state_of, Receives, ReceivesFirst, Begun};
ghost use Rattle.reading.specs.Steps.{tuned, deep, depth_of};

use crate::heads::repeated;
use burst::Refusal;
use forms::Line;
use kinds::Spelled;
use receiver::Receiver;
use text::{Cause, Fault, Malformed, read_head_line};

// A depth as the receiver takes it. One below 0 is allowed as little as 0.
fn as_depth(depth: i32) -> usize
    ensures { result ≡ depth_of depth }
{
    usize::try_from(depth).unwrap_or(0)
}

// A receiver without places, at a depth.
fn receive<C: Spelled + Drop>(channel: C, depth: i32) -> Result<Receiver<C>, Refusal>
    ensures { Receives (C.meaning channel) channel (depth_of depth) result }
{
    let mut receiver = Receiver::new(channel);
    receiver.set_depth(as_depth(depth))?;
    Ok(receiver)
}

/// The depth line after a channel line, and the receiver of both.
pub(crate) fn read_depth<C: Spelled + Drop>(channel: C, line: &[u8]) -> Result<Receiver<C>, Cause>
    ensures does { At C.Spelled.rule 2 (tuned (C.Spelled.form channel)) line.now (state_of C.Spelled.form) result }
    ensures begun { IfOk result Begun }
{
    let line = read_head_line(line)?;
    match line {
        Line::Depth(depth) => {
            let receiver = receive(channel, depth)?;
            Ok(receiver)
        }
        Line::Place(_) => Err(Cause::Text(Malformed::Heads)),
        _ => Err(repeated::<C>(&line)),
    }
}

// The channel line after a depth line.
fn read_channel<C: Spelled>(line: &[u8]) -> Result<C, Cause>
    ensures { ReadsChannel C.Spelled.rule C.Spelled.form line.now result }
{
    let line = read_head_line(line)?;
    match line {
        Line::Depth(_) | Line::Place(_) => Err(Cause::Text(Malformed::Heads)),
        _ => C::from_line(&line),
    }
}

// The same, with the number of the line in a fault.
fn read_second<C: Spelled>(line: &[u8]) -> Result<C, Fault>
    ensures { ReadsSecond C.Spelled.rule C.Spelled.form line.now result }
{
    read_channel(line).map_err(|cause| cause.at(2))
}

// A receiver without places, at the depth of the first line, which is blamed for its refusal.
fn receive_first<C: Spelled + Drop>(channel: C, depth: i32) -> Result<Receiver<C>, Fault>
    ensures { ReceivesFirst (C.meaning channel) channel (depth_of depth) result }
{
    receive(channel, depth).map_err(|refusal| Cause::Receiver(refusal).at(1))
}

/// The channel line after a depth line, and the receiver of both. The depth, which is the first line, is tried now.
pub(crate) fn read_channel_line<C: Spelled + Drop>(
    depth: i32,
    line: &[u8],
) -> Result<Receiver<C>, Fault>
    ensures does { AtLine C.Spelled.rule 2 (deep depth) line.now (state_of C.Spelled.form) result }
    ensures begun { IfOk result Begun }
{
    let channel: C = read_second(line)?;
    receive_first(channel, depth)
}
