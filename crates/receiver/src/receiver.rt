//! A receiver over any channel.
ghost use Rattle.receiver.specs.Bursts.{Kept};
ghost use Rattle.receiver.specs.Sound.{Sound};

use crate::inner::Burst;
use channel::Channel;

mod alters;
mod calls;
mod readings;

/// A channel and a burst received over it.
#[derive(Drop)]
pub struct Receiver<C: Channel> {
    channel: C,
    burst: Burst,
    ghost kept: { Kept burst },
    ghost sound: { Sound (C.meaning channel) burst },
}
