//! Working the columns that are stale.
ghost use Rattle.std.specs.Prelude.{◌≡◌, ℕ, ◌+◌, ◌-◌, ◌<◌, ◌≤◌, slice_index};
ghost use Rattle.burst.specs.Sequences.{place_at};
ghost use Rattle.columns.specs.Cells.{entry_at, CellsWithin, CostsWithin, SurvivorsBelow};
ghost use Rattle.columns.specs.Shapes.{Shapes};
ghost use Rattle.columns.specs.Worked.{Stepped, Backstepped};
ghost use Rattle.columns.specs.Numbers.{as_cost};
ghost use Rattle.columns.specs.Pairs.{min_below};
ghost use Rattle.receiver.specs.Bursts.{Sized, Kept, forward_at, backward_at};
ghost use Rattle.receiver.specs.Settling.{Bounded, Left, Worked, SettledSound, best_cost};
ghost use Rattle.receiver.specs.Sound.{Shaped, Sound};
ghost use Rattle.receiver.specs.Steps.{Climbed, Descended};

use crate::inner::Burst;
use channel::Channel;
use columns::{Column, Section, as_cost};
use cost::Cost;

/// What settling answers: how many columns were worked, and the best, or none.
#[derive(Clone, Copy, PartialEq, Eq)]
pub struct Settled {
    pub columns: usize,
    pub best: Option<u32>,
}

impl Burst {
    // The section of place k, with its stored forward column.
    pub(crate) fn section<'a, C: Channel>(&'a self, channel: &'a C, k: usize) -> Section<'a, C>
        requires sized { Sized self.now }
        requires place { k < 128 }
        ensures channel { result.channel.now ≡ channel.now }
        ensures shape { result.shape ≡ self.now.shape }
        ensures place { result.place.now ≡ place_at self.now.places k }
        ensures column { result.column.now ≡ forward_at self.now k }
    {
        Section {
            channel,
            shape: self.shape,
            place: &self.places[k],
            column: &self.forward[k],
        }
    }

    // The forward column after place k, worked from the stored column of that place.
    fn next_column<C: Channel>(&self, channel: &C, k: usize) -> Column
        requires sized { Sized self.now }
        requires place { k < 128 }
        ensures stepped { (q b : ℕ) → Shapes (C.meaning channel.now) q self.now.shape → CellsWithin b (forward_at self.now k) → b ≤ 40000000 → Stepped (C.meaning channel.now) q (place_at self.now.places k) (forward_at self.now k) result }
        ensures within { (b : ℕ) → CellsWithin b (forward_at self.now k) → b ≤ 40000000 → CellsWithin (b + 131069) result }
        ensures survivors { SurvivorsBelow result }
    {
        self.section(channel, k).step()
    }

    // The backward column of place k, worked from the stored columns of that place and after it.
    fn column_before<C: Channel>(&self, channel: &C, k: usize) -> [u32; 16]
        requires sized { Sized self.now }
        requires place { k < 128 }
        ensures backstepped { (q b : ℕ) → Shapes (C.meaning channel.now) q self.now.shape → CostsWithin b (backward_at self.now (k + 1)) → b ≤ 40000000 → Backstepped (C.meaning channel.now) q (place_at self.now.places k) (forward_at self.now k) (backward_at self.now (k + 1)) result }
        ensures within { (b : ℕ) → CostsWithin b (backward_at self.now (k + 1)) → b ≤ 40000000 → CostsWithin (b + 131069) result }
    {
        self.section(channel, k).backstep(&self.backward[k + 1])
    }

    // Works the forward columns that are stale.
    fn climb<C: Channel>(&mut self, channel: &C)
        requires { Sized self.old }
        ensures climbed { Climbed (C.meaning channel.now) self.old self.new }
        ensures sized { Sized self.new }
        ensures done { self.new.marks.forward ≡ self.old.count }
    {
        for k in self.marks.forward..self.count {
            self.forward[k + 1] = self.next_column(channel, k);
            self.marks.forward = k + 1;
        }
    }

    // Works the backward columns that are stale.
    fn descend<C: Channel>(&mut self, channel: &C)
        requires { Sized self.old }
        ensures descended { Descended (C.meaning channel.now) self.old self.new }
        ensures sized { Sized self.new }
        ensures done { self.new.marks.backward ≡ 0 }
    {
        for k in (0..self.marks.backward).rev() {
            self.backward[k] = self.column_before(channel, k);
            self.marks.backward = k;
        }
    }

    // The least cost of the last forward column, or none.
    pub(crate) fn best(&self) -> Option<u32>
        requires { Sized self.now }
        ensures { best_cost result ≡ as_cost (min_below self.now.shape.states (λ s. (entry_at (forward_at self.now self.now.count) s).cost)) }
    {
        match as_cost(self.forward[self.count].least(self.shape)) {
            Cost::Eighths(cost) => Some(cost),
            Cost::Barred => None,
        }
    }

    // Works every stale column, and answers how many these were and the best.
    pub(crate) fn settle<C: Channel>(&mut self, channel: &C) -> Settled
        requires { Sized self.old }
        ensures count { result.columns ≡ self.old.count - self.old.marks.forward + self.old.marks.backward }
        ensures left { Left self.old self.new }
        ensures worked { Shaped (C.meaning channel.now) self.old → Bounded self.old → Worked (C.meaning channel.now) self.old self.new result.best }
        ensures kept { Kept self.old → Kept self.new }
        ensures sound { Kept self.old → Sound (C.meaning channel.now) self.old → SettledSound (C.meaning channel.now) self.old self.new result.best }
    {
        let columns = self.count - self.marks.forward + self.marks.backward;
        self.climb(channel);
        self.descend(channel);
        Settled {
            columns,
            best: self.best(),
        }
    }
}
