//! How many histories there are.
ghost use Rattle.std.specs.Prelude.{◌≡◌, ◌≤◌};
ghost use Rattle.burst.specs.Histories.{histories};

use channel::Channel;

/// The number of histories: one for each choice of the symbols that a sample depends on besides its own.
pub fn histories<C: Channel>(channel: &C) -> usize
    ensures value { result ≡ histories (C.meaning channel.now) }
    ensures few { result ≤ 128 }
{
    C::alphabet().pow((channel.memory() - 1) as u32)
}
