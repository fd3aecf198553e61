//! The line of a code.
ghost use Rattle.kinds.specs.Code.{of_code};
ghost use Rattle.std.proofs.Common.{rules};

use crate::draft::Draft;
use crate::inscribed::Inscribed;
use crate::line::{Line, write_line};
use crate::put::{Put, put_after};
use crate::short::TooShort;
use channel::Channel;
use code::Code;

impl Line for Code {
    ghost form = { of_code };

    ghost most = { 80 };

    ghost short = { Prim.search rules };

    fn opening(&self) -> &[u8] {
        b"(channel (kind code) (memory "
    }

    fn put_body(&self, draft: &mut Draft) {
        self.memory().put(draft);
        put_after(draft, b") (masks ", &self.first_mask());
        put_after(draft, b" ", &self.second_mask());
        draft.put(b"))\n");
    }
}

impl Inscribed for Code {
    fn write_line(&self, out: &mut [u8]) -> Result<usize, TooShort> {
        write_line(self, out)
    }
}
