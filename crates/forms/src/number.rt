//! Reading the numbers of a line.
ghost use Rattle.std.specs.Fmt.{signed_decimal};
ghost use Rattle.numerals.specs.Numbers.{SevenDigits};
ghost use Rattle.forms.specs.Pieces.{Takes, TakesNumber, Ends};

use crate::fault::NotAForm;
use crate::word::{expect, word};

// A number and what follows it.
pub(crate) fn read_number(text: &[u8]) -> Result<(i32, &[u8]), NotAForm>
    ensures { Takes signed_decimal SevenDigits text.now result }
{
    let (word, rest) = word(text)?;
    let number = numerals::number(word)?;
    Ok((number, rest))
}

// A number and what follows the mark after it. A word can end before the mark.
pub(crate) fn number_then<'a>(text: &'a [u8], mark: &[u8]) -> Result<(i32, &'a [u8]), NotAForm>
    requires { Ends mark.now }
    ensures { TakesNumber mark.now text.now result }
{
    let (number, at_mark) = read_number(text)?;
    let rest = expect(at_mark, mark)?;
    Ok((number, rest))
}
