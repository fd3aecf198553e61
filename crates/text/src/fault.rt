//! What is wrong with a text.
ghost use Rattle.std.specs.Prelude.{◌≡◌};
ghost use Rattle.text.specs.declared.fault.Cause.TheVariants.{Text, Channel, Receiver};
ghost use Rattle.text.specs.declared.fault.Malformed.TheVariants.{NotAForm as Unformed};
ghost use Rattle.text.specs.Faults.{fault_at};

/// Which layer finds something wrong.
#[derive(Clone, Copy, PartialEq, Eq, Debug)]
pub enum Layer {
    Text,
    Channel,
    Receiver,
}

/// What is wrong with a text as such, and its number.
#[derive(Clone, Copy, PartialEq, Eq, Debug)]
pub enum Malformed {
    /// A line is not a form.
    NotAForm = 12,
    /// A head is missing, repeated or misplaced.
    Heads = 13,
    /// There are more than 16,384 bytes.
    TooLong = 14,
}

/// What is wrong: the text as such, or the refusal of a layer below.
#[derive(Clone, Copy, PartialEq, Eq, Debug)]
pub enum Cause {
    Text(Malformed),
    Channel(channel::Refusal),
    Receiver(burst::Refusal),
}

/// The first fault of a text, and the line that it is found at. Lines count from 1.
#[derive(Clone, Copy, PartialEq, Eq, Debug)]
pub struct Fault {
    pub line: usize,
    pub cause: Cause,
}

impl Cause {
    /// The fault with this cause at a line.
    pub fn at(self, line: usize) -> Fault
        ensures { result ≡ fault_at line self }
    {
        Fault { line, cause: self }
    }
}

impl From<channel::Refusal> for Cause {
    ghost from_gives = { λ e c. c ≡ Channel e };

    fn from(refusal: channel::Refusal) -> Cause {
        Cause::Channel(refusal)
    }
}

impl From<burst::Refusal> for Cause {
    ghost from_gives = { λ e c. c ≡ Receiver e };

    fn from(refusal: burst::Refusal) -> Cause {
        Cause::Receiver(refusal)
    }
}

impl From<forms::NotAForm> for Cause {
    ghost from_gives = { λ e c. c ≡ Text Unformed };

    fn from(_why: forms::NotAForm) -> Cause {
        Cause::Text(Malformed::NotAForm)
    }
}
