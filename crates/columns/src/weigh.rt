//! What the symbols of each state cost at a place.
ghost use Rattle.std.specs.Prelude.{◌≡◌, ℕ, ◌<◌, slice_index};
ghost use Rattle.cost.specs.Arithmetic.{plus};
ghost use Rattle.channel.specs.Meaning.{cost_of};
ghost use Rattle.burst.specs.Places.{prior_cost};
ghost use Rattle.columns.specs.Numbers.{as_cost, Within};
ghost use Rattle.columns.specs.Pairs.{pairs, pair_weight, Weighed};

use crate::indices::filled;
use crate::section::Section;
use crate::stored::BARRED;
use channel::Channel;
use cost::Cost;

impl<C: Channel> Section<'_, C> {
    // The channel's cost of a window, plus the prior of a symbol.
    fn cost(&self, window: usize, symbol: usize) -> u32
        ensures value { as_cost result ≡ plus (cost_of (C.meaning self.now.channel.now) self.now.place.now.sample window) (prior_cost self.now.place.now.priors symbol) }
        ensures small { Within 131069 result }
    {
        match (
            self.channel.cost(self.place.sample, window),
            self.place.priors.cost(symbol),
        ) {
            (Cost::Eighths(cost), Cost::Eighths(prior)) => cost + prior,
            _ => BARRED,
        }
    }

    // What a pair of a state and a symbol costs: the pair of s and a is number a + M · s.
    fn weight(&self, pair: usize) -> u32
        requires { pair < pairs self.now.shape }
        ensures value { as_cost result ≡ pair_weight (C.meaning self.now.channel.now) self.now.shape.symbols self.now.place.now self.now.column.now pair }
        ensures small { Within 131069 result }
    {
        let symbol = pair % self.shape.symbols;
        let history = usize::from(self.column.cells[pair / self.shape.symbols].history);
        self.cost(symbol + self.shape.symbols * history, symbol)
    }

    // What each pair costs.
    pub(crate) fn weigh(&self) -> [u32; 64]
        ensures { Weighed (C.meaning self.now.channel.now) self.now.shape self.now.place.now self.now.column.now result }
    {
        filled(self.pairs(), BARRED, |pair| self.weight(pair))
    }
}
