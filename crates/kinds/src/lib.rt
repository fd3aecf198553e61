//! Channels as a burst text has them: each kind's line, and the channel that it loads.
#![tactic(auto)]

ghost use Rattle.std.specs.Prelude.{◌≡◌};
ghost use Rattle.forms.specs.Forms.{Form as Forms};
ghost use Rattle.kinds.specs.Rules.{Rule, Loads, Spells};

use channel::Channel;
use forms::Line;
use text::{Cause, Kind};

mod code_kind;
mod table_kind;
mod taps_kind;

/// A channel of a kind that a line can spell.
pub trait Spelled: Channel {
    ghost rule: { Rule };

    ghost form: { Self → Forms };

    /// The kind.
    fn kind() -> Kind
        ensures { result ≡ rule.kind };

    /// The channel that a line loads, or why it loads none of this kind.
    // A method, and no `TryFrom<&Line>`: as a bound that would be over each lifetime of the line.
    fn from_line(line: &Line) -> Result<Self, Cause>
        ensures { Spells rule form line.now result };

    ghost symbols: { rule.symbols ≡ Self.Channel.symbols };

    ghost meant: { (c : Self) → Self.Channel.meaning c ≡ rule.meaning (form c) };

    ghost loads: { (c : Self) → Loads rule (form c) };
}
