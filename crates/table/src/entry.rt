//! What a table has for a window.
ghost use Rattle.std.specs.Prelude.{◌≡◌};
ghost use Rattle.table.specs.Entries.{entry_in_range};

/// Barred, or the two numbers that a sample has under the window if there is no noise: the word that texts and costs have, where an `Option` has `None`.
#[derive(Clone, Copy, PartialEq, Eq, Debug)]
pub enum Entry {
    Barred,
    Expected { first: i32, second: i32 },
}

impl Entry {
    /// The least expected number.
    pub const LOWEST: i32 = -8191;
    /// The greatest expected number.
    pub const HIGHEST: i32 = 8191;

    /// Whether the entry is barred or both its numbers are in range.
    pub fn in_range(self) -> bool
        ensures { result ≡ entry_in_range self }
    {
        match self {
            Entry::Barred => true,
            Entry::Expected { first, second } => {
                let range = Self::LOWEST..=Self::HIGHEST;
                range.contains(&first) && range.contains(&second)
            }
        }
    }
}
