//! The lists of a line.
ghost use Rattle.std.specs.Prelude.{◌≡◌};
ghost use Rattle.forms.specs.Lines.{taps_in, entries_in, priors_in};

use crate::line::{PlaceLine, TableLine, TapsLine};
use crate::prior::Prior;
use table::Entry;

// A getter for each line: a field of its own name tells more than one of a common type would.
impl TapsLine {
    /// The taps.
    pub fn taps(&self) -> &[i16]
        ensures { result.now ≡ taps_in self.now }
    {
        self.taps.as_slice()
    }
}

impl TableLine {
    /// The entries.
    pub fn entries(&self) -> &[Entry]
        ensures { result.now ≡ entries_in self.now }
    {
        self.entries.as_slice()
    }
}

impl PlaceLine {
    /// The priors.
    pub fn priors(&self) -> &[Prior]
        ensures { result.now ≡ priors_in self.now }
    {
        self.priors.as_slice()
    }
}
