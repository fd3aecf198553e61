//! The layer and the number by which a fault is named.
ghost use Rattle.std.specs.Prelude.{◌≡◌};
ghost use Rattle.text.specs.Faults.{layer_of, number_of};

use crate::fault::{Cause, Fault, Layer};

impl Cause {
    /// The layer that found it.
    pub fn layer(self) -> Layer
        ensures { result ≡ layer_of self }
    {
        match self {
            Cause::Text(_) => Layer::Text,
            Cause::Channel(_) => Layer::Channel,
            Cause::Receiver(_) => Layer::Receiver,
        }
    }

    /// Its number.
    pub fn number(self) -> u8
        ensures { result ≡ number_of self }
    {
        match self {
            Cause::Text(why) => why as u8,
            Cause::Channel(refusal) => refusal.number(),
            Cause::Receiver(refusal) => refusal.number(),
        }
    }
}

impl Fault {
    /// The layer that found it.
    pub fn layer(self) -> Layer
        ensures { result ≡ layer_of self.cause }
    {
        self.cause.layer()
    }

    /// Its number.
    pub fn number(self) -> u8
        ensures { result ≡ number_of self.cause }
    {
        self.cause.number()
    }
}
