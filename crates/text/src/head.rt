//! Reading a line where a head is wanted.
ghost use Rattle.text.specs.Kinds.{ReadsHeadLine};

use crate::fault::{Cause, Malformed};
use forms::{Line, read_line};

/// What a line says where a head is wanted, or what is wrong with it: there is none, or it is no form.
pub fn read_head_line(line: &[u8]) -> Result<Line, Cause>
    ensures { ReadsHeadLine line.now result }
{
    if line.is_empty() {
        return Err(Cause::Text(Malformed::Heads));
    }
    Ok(read_line(line)?)
}
