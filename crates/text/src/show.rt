//! The text of a fault.
ghost use Rattle.std.specs.Prelude.{Some};
ghost use Rattle.text.specs.Shown.{layer_text, fault_text};

use crate::fault::{Fault, Layer};
use std::fmt;

impl fmt::Display for Layer {
    ghost output = { λ l. Some (layer_text l) };

    fn fmt<W: fmt::Write>(&self, f: &mut fmt::Formatter<W>) -> fmt::Result {
        match self {
            Layer::Text => write!(f, "text"),
            Layer::Channel => write!(f, "channel"),
            Layer::Receiver => write!(f, "receiver"),
        }
    }
}

impl fmt::Display for Fault {
    ghost output = { λ e. Some (fault_text e) };

    fn fmt<W: fmt::Write>(&self, f: &mut fmt::Formatter<W>) -> fmt::Result {
        let line = self.line;
        let layer = self.layer();
        let number = self.number();
        write!(f, "(fault (line {line}) (from {layer}) (number {number}))")
    }
}
