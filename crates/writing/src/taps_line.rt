//! The line of taps.
ghost use Rattle.kinds.specs.Taps.{of_taps};
ghost use Rattle.std.proofs.Common.{rules};

use crate::draft::Draft;
use crate::inscribed::Inscribed;
use crate::line::{Line, write_line};
use crate::put::{Put, put_list};
use crate::short::TooShort;
use taps::Taps;

impl Line for Taps {
    ghost form = { of_taps };

    ghost most = { 100 };

    ghost short = { Prim.search rules };

    fn opening(&self) -> &[u8] {
        b"(channel (kind taps) (noise "
    }

    fn put_body(&self, draft: &mut Draft) {
        self.noise().put(draft);
        put_list(draft, b") (taps", self.taps());
    }
}

impl Inscribed for Taps {
    fn write_line(&self, out: &mut [u8]) -> Result<usize, TooShort> {
        write_line(self, out)
    }
}
