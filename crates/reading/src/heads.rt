//! Reading the heads of a text.
ghost use Rattle.std.specs.Prelude.{◌≡◌, if◌then◌else◌};
ghost use Rattle.forms.specs.Forms.{Form as Forms, head_of};
ghost use Rattle.forms.specs.Lines.{said};
ghost use Rattle.text.specs.Kinds.{kind_of};
ghost use Rattle.text.specs.declared.fault.Layer.TheVariants.{Text as ByText};
ghost use Rattle.kinds.specs.Rules.{is_kind, told_by};
ghost use Rattle.reading.specs.Lines.{At, first_state};
ghost use Rattle.reading.specs.Steps.{bare};

use crate::first::First;
use forms::Line;
use kinds::Spelled;
use text::{Cause, Kind, Malformed, read_head_line};

/// What is wrong with a channel line where one stands: 12 if it is of another kind, otherwise 13.
pub(crate) fn repeated<C: Spelled>(line: &Line) -> Cause
    ensures { told_by result ≡ (ByText, (if is_kind C.Spelled.rule.kind (kind_of (head_of (said line.now))) then 13 else 12)) }
{
    match Kind::of(line) {
        Some(kind) if kind == C::kind() => Cause::Text(Malformed::Heads),
        _ => Cause::Text(Malformed::NotAForm),
    }
}

// The first head.
pub(crate) fn read_first<C: Spelled>(line: &[u8]) -> Result<First<C>, Cause>
    ensures { At C.Spelled.rule 1 bare line.now (first_state C.Spelled.form) result }
{
    let line = read_head_line(line)?;
    match line {
        Line::Depth(depth) => Ok(First::Depth(depth)),
        Line::Place(_) => Err(Cause::Text(Malformed::Heads)),
        _ => {
            let channel = C::from_line(&line)?;
            Ok(First::Channel(channel))
        }
    }
}
