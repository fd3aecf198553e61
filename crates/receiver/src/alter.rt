//! Changing a place of a burst, and removing its last places.
ghost use Rattle.std.specs.Prelude.{◌≡◌, ◌<◌, ◌≤◌, min};
ghost use Rattle.channel.specs.Meaning.{Meaning};
ghost use Rattle.receiver.specs.Bursts.{Kept};
ghost use Rattle.receiver.specs.Changes.{Altered, Shortened};
ghost use Rattle.receiver.specs.Sound.{Fits, Sound, TellsFull};
ghost use Rattle.receiver.specs.Standing.{standing, marks_after, altered};

use crate::inner::{Burst, Marks};
use burst::Place;

impl Marks {
    // The marks after a change at place k of so many, at full depth or at a smaller one.
    fn after_change(self, full: bool, count: usize, k: usize) -> Marks
        requires { k < 128 }
        ensures { result ≡ marks_after full count k self }
    {
        Marks {
            forward: self.forward.min(k),
            backward: if full {
                self.backward.max(k + 1)
            } else {
                count
            },
        }
    }

    // The marks after a cut that leaves so many places.
    fn after_cut(self, count: usize) -> Marks
        ensures { result ≡ record { forward = min self.forward count; backward = count } }
    {
        Marks {
            forward: self.forward.min(count),
            backward: count,
        }
    }
}

impl Burst {
    // Changes place k. No column is written; those that depend on the place are stale.
    pub(crate) fn alter(&mut self, full: bool, k: usize, place: Place)
        requires held { k < self.old.count }
        requires kept { Kept self.old }
        ensures altered { Altered self.old self.new (altered full (standing self.old) k place) }
        ensures kept { Kept self.new }
        ensures sound { (m : Meaning) → TellsFull m self.old full → Fits m place → Sound m self.old → Sound m self.new }
    {
        self.places[k] = place;
        self.marks = self.marks.after_change(full, self.count, k);
    }

    // Removes the last n places. The new last backward column is written, and no other is fresh.
    pub(crate) fn cut(&mut self, n: usize)
        requires held { n ≤ self.old.count }
        requires kept { Kept self.old }
        ensures shortened { Shortened self.old self.new n }
        ensures kept { Kept self.new }
        ensures sound { (m : Meaning) → Sound m self.old → Sound m self.new }
    {
        self.count -= n;
        self.backward[self.count] = [0; 16];
        self.marks = self.marks.after_cut(self.count);
    }
}
