//! The line of a table.
ghost use Rattle.kinds.specs.Table.{of_table};
ghost use Rattle.std.proofs.Common.{rules};

use crate::draft::Draft;
use crate::inscribed::Inscribed;
use crate::line::{Line, write_line};
use crate::put::{Put, put_after, put_list};
use crate::short::TooShort;
use channel::Channel;
use table::Table;

impl Line for Table {
    ghost form = { of_table };

    ghost most = { 6740 };

    ghost short = { Prim.search rules };

    fn opening(&self) -> &[u8] {
        b"(channel (kind table) (noise "
    }

    fn put_body(&self, draft: &mut Draft) {
        self.noise().put(draft);
        put_after(draft, b") (memory ", &self.memory());
        put_list(draft, b") (entries", self.entries());
    }
}

impl Inscribed for Table {
    fn write_line(&self, out: &mut [u8]) -> Result<usize, TooShort> {
        write_line(self, out)
    }
}
