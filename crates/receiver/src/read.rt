//! Reading what the columns of a burst say.
ghost use Rattle.std.specs.Prelude.{◌≡◌, ℕ, ◌+◌, ◌<◌, ◌≤◌, length, take, drop, IfSome, Some, None, ◌≢◌, slice_index_or};
ghost use Rattle.cost.specs.declared.Cost.TheVariants.{Barred};
ghost use Rattle.channel.specs.Meaning.{Meaning, Lawful};
ghost use Rattle.recursions.specs.Answers.{value_cost, trace};
ghost use Rattle.recursions.specs.Depths.{states};
ghost use Rattle.recursions.specs.Forward.{cell_at, forward};
ghost use Rattle.burst.specs.Sequences.{place_at};
ghost use Rattle.columns.specs.Cells.{entry_at, CellsWithin, CostsWithin};
ghost use Rattle.columns.specs.Shapes.{Shapes};
ghost use Rattle.columns.specs.Worked.{Met};
ghost use Rattle.receiver.specs.Bursts.{Sized, Kept, Fresh, places_of, forward_at, backward_at};
ghost use Rattle.receiver.specs.Readings.{LastState, Shows, ShownIsBest};
ghost use Rattle.receiver.specs.Sound.{Sound};

use crate::inner::Burst;
use channel::Channel;
use columns::{Survivor, as_cost};
use cost::Cost;

impl Burst {
    // What a symbol costs where the stored columns of a place meet.
    fn meet<C: Channel>(&self, channel: &C, place: usize, symbol: usize) -> u32
        requires sized { Sized self.now }
        requires place { place < 128 }
        ensures { (q b : ℕ) → Shapes (C.meaning channel.now) q self.now.shape → CellsWithin b (forward_at self.now place) → CostsWithin b (backward_at self.now (place + 1)) → b ≤ 20000000 → symbol < self.now.shape.symbols → Met (C.meaning channel.now) q (place_at self.now.places place) (forward_at self.now place) (backward_at self.now (place + 1)) symbol result }
    {
        self.section(channel, place)
            .meeting(&self.backward[place + 1], symbol)
    }

    // The cost of a symbol at a place, where all columns are fresh.
    pub(crate) fn cost<C: Channel>(&self, channel: &C, place: usize, symbol: usize) -> Cost
        requires kept { Kept self.now }
        requires fresh { Fresh self.now }
        requires place { place < self.now.count }
        requires symbol { symbol < (C.meaning channel.now).symbols }
        ensures { Sound (C.meaning channel.now) self.now → result ≡ value_cost (C.meaning channel.now) self.now.depth (places_of self.now) place symbol }
    {
        as_cost(self.meet(channel, place, symbol))
    }

    // The first state that has the best, or none if there is no best.
    pub(crate) fn last_state(&self) -> Option<usize>
        requires kept { Kept self.now }
        requires fresh { Fresh self.now }
        ensures small { IfSome result (λ s. s < 16) }
        ensures first { (m : Meaning) → Sound m self.now → LastState m self.now result }
    {
        let best = self.best()?;
        self.forward[self.count].first_with(self.shape, best)
    }

    // The survivor of a state in a forward column.
    fn survivor(&self, column: usize, state: usize) -> Option<Survivor>
        requires sized { Sized self.now }
        requires column { column < 129 }
        requires state { state < 16 }
        ensures { result ≡ (entry_at (forward_at self.now column) state).survivor }
    {
        self.forward[column].cells[state].survivor
    }

    // Writes the symbols back along survivors from a state of the last column, and leaves the rest of the list.
    pub(crate) fn trace(&self, start: usize, list: &mut [u8])
        requires kept { Kept self.now }
        requires fresh { Fresh self.now }
        requires state { start < 16 }
        requires room { self.now.count ≤ length list.old }
        ensures rest { drop self.now.count list.new ≡ drop self.now.count list.old }
        ensures front { (m : Meaning) → Lawful m → Sound m self.now → start < states m self.now.depth → ((cell_at (forward m self.now.depth (places_of self.now) self.now.count) start).cost ≢ Barred) → take self.now.count list.new ≡ trace m self.now.depth (places_of self.now) self.now.count start }
    {
        let mut state = start;
        for k in (0..self.count).rev() {
            let Some(survivor) = self.survivor(k + 1, state) else {
                return;
            };
            list[k] = survivor.symbol;
            state = usize::from(survivor.state);
        }
    }

    // Writes the shown sequence at the front of a list, from the first state that has the best.
    pub(crate) fn show(&self, start: usize, list: &mut [u8])
        requires kept { Kept self.now }
        requires fresh { Fresh self.now }
        requires state { start < 16 }
        requires room { self.now.count ≤ length list.old }
        ensures rest { drop self.now.count list.new ≡ drop self.now.count list.old }
        ensures shown { (m : Meaning) → Lawful m → Sound m self.now → LastState m self.now (Some start) → Shows m self.now list.old list.new }
        ensures law { ShownIsBest }
    {
        self.trace(start, list);
    }
}
