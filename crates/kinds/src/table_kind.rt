//! A table as a burst text has it.
ghost use Rattle.std.specs.Prelude.{◌≡◌};
ghost use Rattle.kinds.specs.Table.{of_table, table_rule};
ghost use Rattle.kinds.specs.Tabled.{table_load};
ghost use Rattle.std.proofs.Common.{rules};

use crate::Spelled;
use forms::Line;
use table::Table;
use text::{Cause, Kind, Malformed};

impl Spelled for Table {
    ghost rule = { table_rule };

    ghost form = { of_table };

    ghost symbols = { Prim.search rules };

    ghost meant = { Prim.search rules };

    ghost loads = { table_load };

    fn kind() -> Kind {
        Kind::Table
    }

    fn from_line(line: &Line) -> Result<Table, Cause> {
        match line {
            Line::Table(line) => {
                let mut channel = Table::blank();
                channel.load(line.memory, line.entries(), line.noise)?;
                Ok(channel)
            }
            _ => Err(Cause::Text(Malformed::NotAForm)),
        }
    }
}
