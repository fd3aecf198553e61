//! Writing a number.
ghost use Rattle.std.specs.Prelude.{◌≡◌, ◌≤◌, length, decimal};
ghost use Rattle.std.specs.Fmt.{signed_decimal};
ghost use Rattle.numerals.specs.Numerals.{text_of};

use itoa::{Buffer, Integer};
use prefix::Prefix;

/// A number as text.
#[derive(Clone, Copy)]
pub struct Numeral {
    text: Prefix<u8, 20>,
}

// The text, which is not too long.
fn held(text: &[u8]) -> Numeral
    requires { length text.now ≤ 20 }
    ensures { text_of result ≡ text.now }
{
    Numeral {
        text: Prefix::of(text, b' '),
    }
}

// The text of a number of a type whose numbers have at most twenty bytes.
fn written<I: Integer>(number: I) -> Numeral
    requires { I.MAX_STR_LEN ≤ 20 }
    ensures { text_of result ≡ I.text number }
{
    let mut buffer = Buffer::new();
    held(buffer.format(number).as_bytes())
}

impl Numeral {
    /// The text of a number that is not below 0.
    pub fn of_u64(value: u64) -> Numeral
        ensures { text_of result ≡ decimal value }
    {
        written::<u64>(value)
    }

    /// The text of a number, with a minus before it if it is below 0.
    pub fn of_i32(value: i32) -> Numeral
        ensures { text_of result ≡ signed_decimal value }
    {
        written::<i32>(value)
    }

    /// The text.
    pub fn text(&self) -> &[u8]
        ensures { result.now ≡ text_of self.now }
    {
        self.text.as_slice()
    }
}
