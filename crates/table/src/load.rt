//! Making and loading a table.
ghost use Rattle.std.specs.Prelude.{◌≡◌, true, length, pos};
ghost use Rattle.channel.specs.Refusals.{refused_by};
ghost use Rattle.table.specs.Entries.{each_in_range, blank_entries};
ghost use Rattle.table.specs.Rule.{allowed_size, load_refusal};
ghost use Rattle.table.specs.Held.{memory_of, entries_of, noise_of, Stands};

use crate::{Entry, Table};
use channel::{Noise, Refusal};
use prefix::Prefix;

impl Table {
    /// The greatest memory.
    pub const LONGEST: i32 = 4;

    // The entry that expects 0 and 0.
    const SILENT: Entry = Entry::Expected {
        first: 0,
        second: 0,
    };

    /// A memory of one symbol, four entries that expect 0 and 0, and the noise 8.
    pub fn blank() -> Table
        ensures memory { memory_of result ≡ 1 }
        ensures entries { entries_of result ≡ blank_entries }
        ensures noise { noise_of result ≡ 8 }
    {
        Table {
            memory: 1,
            entries: Prefix::repeat(Self::SILENT, 4),
            noise: Noise::blank(),
        }
    }

    /// The entries held, in the order of windows.
    pub fn entries(&self) -> &[Entry]
        ensures { result.now ≡ entries_of self.now }
    {
        self.entries.as_slice()
    }

    /// The noise held.
    pub fn noise(&self) -> u32
        ensures { result ≡ noise_of self.now }
    {
        self.noise.value()
    }

    /// Puts another memory, other entries and another noise in the place of those held, or refuses and leaves those.
    pub fn load(&mut self, memory: i32, entries: &[Entry], noise: i32) -> Result<(), Refusal>
        ensures answer { refused_by result ≡ load_refusal memory entries.now noise }
        ensures stands { Stands result self.old self.new memory entries.now noise }
    {
        if !size_allowed(memory, entries.len()) {
            return Err(Refusal::Size);
        }
        if !all_in_range(entries) {
            return Err(Refusal::Range);
        }
        let noise = Noise::new(noise)?;
        self.put(memory, entries, noise);
        Ok(())
    }

    // Puts what is allowed in the place of what is held.
    fn put(&mut self, memory: i32, entries: &[Entry], noise: Noise)
        requires size { allowed_size memory (length entries.now) ≡ true }
        requires ranged { each_in_range entries.now ≡ true }
        ensures memory { pos (memory_of self.new) ≡ memory }
        ensures entries { entries_of self.new ≡ entries.now }
        ensures noise { noise_of self.new ≡ noise.number }
    {
        self.memory = memory.unsigned_abs() as usize;
        self.entries.assign(entries);
        self.noise = noise;
    }
}

// Whether the memory is allowed and this many entries are one for each window.
fn size_allowed(memory: i32, count: usize) -> bool
    ensures { result ≡ allowed_size memory count }
{
    if !(1..=Table::LONGEST).contains(&memory) {
        return false;
    }
    count == 4usize.pow(memory.unsigned_abs())
}

// Whether each entry is in its range.
fn all_in_range(entries: &[Entry]) -> bool
    ensures { result ≡ each_in_range entries.now }
{
    entries.iter().all(|entry| entry.in_range())
}
