//! Taps as a burst text has them.
ghost use Rattle.std.specs.Prelude.{◌≡◌};
ghost use Rattle.kinds.specs.Taps.{of_taps, taps_rule};
ghost use Rattle.kinds.specs.Tapped.{taps_load};
ghost use Rattle.std.proofs.Common.{rules};

use crate::Spelled;
use forms::Line;
use taps::Taps;
use text::{Cause, Kind, Malformed};

impl Spelled for Taps {
    ghost rule = { taps_rule };

    ghost form = { of_taps };

    ghost symbols = { Prim.search rules };

    ghost meant = { Prim.search rules };

    ghost loads = { taps_load };

    fn kind() -> Kind {
        Kind::Taps
    }

    fn from_line(line: &Line) -> Result<Taps, Cause> {
        match line {
            Line::Taps(line) => {
                let mut channel = Taps::blank();
                channel.load(line.taps(), line.noise)?;
                Ok(channel)
            }
            _ => Err(Cause::Text(Malformed::NotAForm)),
        }
    }
}
