//! The table kind: what is expected under each window, and a noise.
#![tactic(auto)]

ghost use Rattle.std.specs.Prelude.{◌≡◌, ◌^◌, ◌≤◌, true, length};
ghost use Rattle.prefix.specs.Prefix.{items};
ghost use Rattle.table.specs.Entries.{each_in_range};

use channel::Noise;
use prefix::Prefix;

mod entry;
mod load;
mod price;

pub use entry::Entry;

/// A memory of one to four symbols, an entry for each window, in their order, and a noise.
#[derive(Clone, Copy)]
pub struct Table {
    memory: usize,
    entries: Prefix<Entry, 256>,
    noise: Noise,
    ghost some: { 1 ≤ memory },
    ghost few: { memory ≤ 4 },
    ghost whole: { length (items entries) ≡ 4 ^ memory },
    ghost fits: { length (items entries) ≤ 256 },
    ghost ranged: { each_in_range (items entries) ≡ true },
}
