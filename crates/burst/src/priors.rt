//! The priors of a place: what is known of its symbol beforehand.
ghost use Rattle.std.specs.Prelude.{◌≡◌, ℕ, ◌≤◌, length, slice_index};

mod rule;

/// Four numbers of eighths, one for each of the values 0 to 3, where 65,535 means barred.
#[derive(Clone, Copy)]
pub struct Priors {
    numbers: [u16; 4],
    ghost four: { length numbers ≡ 4 },
    ghost small: { ((value : ℕ) → slice_index numbers value ≤ 65535) },
}

impl Priors {
    /// The priors of the values 0 to 3.
    pub fn new(numbers: [u16; 4]) -> Priors
        ensures { result.numbers ≡ numbers }
    {
        Priors { numbers }
    }

    /// The four numbers.
    pub fn numbers(self) -> [u16; 4]
        ensures { result ≡ self.numbers }
    {
        self.numbers
    }
}
