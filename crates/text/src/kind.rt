//! The kinds of channels.
ghost use Rattle.std.specs.Prelude.{◌≡◌};
ghost use Rattle.forms.specs.Forms.{head_of};
ghost use Rattle.forms.specs.Lines.{said};
ghost use Rattle.text.specs.Kinds.{kind_of};

use forms::Line;

/// A kind of channel.
#[derive(Clone, Copy, PartialEq, Eq, Debug)]
pub enum Kind {
    Taps,
    Table,
    Code,
}

impl Kind {
    /// The kind of a channel line, none for other lines.
    pub fn of(line: &Line) -> Option<Kind>
        ensures { result ≡ kind_of (head_of (said line.now)) }
    {
        match line {
            Line::Taps(_) => Some(Kind::Taps),
            Line::Table(_) => Some(Kind::Table),
            Line::Code(_) => Some(Kind::Code),
            Line::Depth(_) | Line::Place(_) => None,
        }
    }
}
