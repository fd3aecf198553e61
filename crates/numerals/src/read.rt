//! Reading a number.
ghost use Rattle.std.specs.Prelude.{◌≡◌, ◌≤◌, length, ◌≢◌, slice_index};
ghost use Rattle.numerals.specs.Numbers.{after_first, ReadsDigits, ReadsNumber};

/// Why a text is not a number.
#[derive(Clone, Copy, PartialEq, Eq, Debug)]
pub enum NotANumber {
    /// There is no digit.
    Empty,
    /// There are more than seven digits.
    TooLong,
    /// A 0 stands before another digit, or after the sign.
    Zero,
    /// A byte is not a digit.
    NotADigit,
}

/// The greatest number of digits.
pub const MOST: usize = 7;

// The number that one to seven digits write, the first of them not 0 unless it is the only one.
fn natural(text: &[u8]) -> Result<u32, NotANumber>
    ensures { ReadsDigits text.now result }
{
    match text {
        [] => return Err(NotANumber::Empty),
        [b'0', _, ..] => return Err(NotANumber::Zero),
        _ => {}
    }
    if text.len() > MOST {
        return Err(NotANumber::TooLong);
    }
    let mut n: u32 = 0;
    for b in text {
        match *b {
            b'0'..=b'9' => n = n * 10 + u32::from(*b - b'0'),
            _ => return Err(NotANumber::NotADigit),
        }
    }
    Ok(n)
}

// The number that a text writes which begins with a minus: the rest has to write a number above 0.
fn negative(text: &[u8], rest: &[u8]) -> Result<i32, NotANumber>
    requires some { 1 ≤ length text.now }
    requires minus { slice_index text.now 0 ≡ 45 }
    requires rest { rest.now ≡ after_first text.now }
    ensures { ReadsNumber text.now result }
{
    let n = natural(rest)?;
    if n == 0 {
        return Err(NotANumber::Zero);
    }
    Ok(-(n as i32))
}

// The number that a text writes which does not begin with a minus.
fn plain(text: &[u8]) -> Result<i32, NotANumber>
    requires { 1 ≤ length text.now → slice_index text.now 0 ≢ 45 }
    ensures { ReadsNumber text.now result }
{
    Ok(natural(text)? as i32)
}

/// The number that a text writes, if it writes one: an optional minus, then one to seven digits, the first of them not 0 unless it is the only one, and no
/// minus before 0.
pub fn number(text: &[u8]) -> Result<i32, NotANumber>
    ensures { ReadsNumber text.now result }
{
    match text {
        [b'-', rest @ ..] => negative(text, rest),
        _ => plain(text),
    }
}
