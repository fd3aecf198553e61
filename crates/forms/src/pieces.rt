//! Numbers, entries and priors as pieces of a line.
ghost use Rattle.std.specs.Prelude.{◌≡◌};
ghost use Rattle.std.specs.Fmt.{signed_decimal};
ghost use Rattle.numerals.specs.Numbers.{SevenDigits};
ghost use Rattle.forms.specs.Forms.{entry_text, EntryLawful, prior_text, PriorLawful};
ghost use Rattle.forms.specs.Pieces.{TakesPair};
ghost use Rattle.forms.specs.Telling.{number_told, prior_told, entry_told};

use crate::fault::NotAForm;
use crate::number::{number_then, read_number};
use crate::piece::Piece;
use crate::prior::Prior;
use crate::word::{check_end, expect, word};
use table::Entry;

impl Piece for i32 {
    ghost written = { signed_decimal };

    ghost lawful = { SevenDigits };

    ghost told = { number_told };

    fn read(text: &[u8]) -> Result<(i32, &[u8]), NotAForm> {
        read_number(text)
    }
}

impl Piece for Prior {
    ghost written = { prior_text };

    ghost lawful = { PriorLawful };

    ghost told = { prior_told };

    fn read(text: &[u8]) -> Result<(Prior, &[u8]), NotAForm> {
        let (word, rest) = word(text)?;
        if word == b"barred".as_slice() {
            return Ok((Prior::Barred, rest));
        }
        let number = numerals::number(word)?;
        Ok((Prior::Number(number), rest))
    }
}

// Two numbers in brackets, and what follows them.
fn read_expected(text: &[u8]) -> Result<(Entry, &[u8]), NotAForm>
    ensures { TakesPair text.now result }
{
    let at_first = expect(text, b"(")?;
    let (first, at_second) = number_then(at_first, b" ")?;
    let (second, rest) = number_then(at_second, b")")?;
    Ok((Entry::Expected { first, second }, rest))
}

impl Piece for Entry {
    ghost written = { entry_text };

    ghost lawful = { EntryLawful };

    ghost told = { entry_told };

    fn read(text: &[u8]) -> Result<(Entry, &[u8]), NotAForm> {
        if let Ok(rest) = expect(text, b"barred") {
            check_end(rest)?;
            return Ok((Entry::Barred, rest));
        }
        let (entry, rest) = read_expected(text)?;
        check_end(rest)?;
        Ok((entry, rest))
    }
}
