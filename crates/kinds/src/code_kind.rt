//! A code as a burst text has it.
ghost use Rattle.std.specs.Prelude.{◌≡◌};
ghost use Rattle.kinds.specs.Code.{of_code, code_rule};
ghost use Rattle.std.proofs.Common.{rules};

use crate::Spelled;
use code::Code;
use forms::Line;
use text::{Cause, Kind, Malformed};

impl Spelled for Code {
    ghost rule = { code_rule };

    ghost form = { of_code };

    ghost symbols = { Prim.search rules };

    ghost meant = { Prim.search rules };

    ghost loads = { Prim.search rules };

    fn kind() -> Kind {
        Kind::Code
    }

    fn from_line(line: &Line) -> Result<Code, Cause> {
        match line {
            Line::Code(line) => {
                let mut channel = Code::blank();
                channel.load(line.memory, line.first, line.second)?;
                Ok(channel)
            }
            _ => Err(Cause::Text(Malformed::NotAForm)),
        }
    }
}
