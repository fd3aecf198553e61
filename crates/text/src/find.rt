//! Finding the kind of a text's channel.
ghost use Rattle.std.specs.Prelude.{◌≡◌, length, nat_le};
ghost use Rattle.text.specs.Kinds.{Found, FindsKind, KindHasOneAnswer, ReadsHead, ReadsHeadAt};

use crate::fault::{Cause, Fault, Malformed};
use crate::head::read_head_line;
use crate::kind::Kind;
use crate::lines::cut_line;
use forms::Line;

/// The greatest number of bytes of a text.
pub const MOST_BYTES: usize = 16_384;

// The kind of a channel line, none for a depth line, or what is wrong with the line where a channel line is lacking.
fn read_head(line: &[u8]) -> Result<Option<Kind>, Cause>
    ensures { ReadsHead line.now result }
{
    let line = read_head_line(line)?;
    match line {
        Line::Place(_) => Err(Cause::Text(Malformed::Heads)),
        _ => Ok(Kind::of(&line)),
    }
}

// The same, with the number of the line in a fault.
fn read_head_at(line: &[u8], number: usize) -> Result<Option<Kind>, Fault>
    ensures { ReadsHeadAt number line.now result }
{
    read_head(line).map_err(|cause| cause.at(number))
}

// The kind, whatever the length.
fn find(text: &[u8]) -> Result<Kind, Fault>
    ensures { Found text.now result }
{
    let (first, rest) = cut_line(text);
    if let Some(kind) = read_head_at(first, 1)? {
        return Ok(kind);
    }
    let (second, _) = cut_line(rest);
    match read_head_at(second, 2)? {
        Some(kind) => Ok(kind),
        None => Err(Cause::Text(Malformed::Heads).at(2)),
    }
}

// Whether a text is not too long.
fn short_enough(text: &[u8]) -> bool
    ensures value { result ≡ nat_le (length text.now) 16384 }
    ensures one { KindHasOneAnswer }
{
    text.len() <= MOST_BYTES
}

/// The kind of the first channel line of a text, or the first fault before it. At most one depth line can stand before a channel line.
pub fn find_kind(text: &[u8]) -> Result<Kind, Fault>
    ensures finds { FindsKind text.now result }
    ensures one { KindHasOneAnswer }
{
    if !short_enough(text) {
        return Err(Cause::Text(Malformed::TooLong).at(1));
    }
    find(text)
}
