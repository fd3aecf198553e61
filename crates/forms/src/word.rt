//! Marks and words.
ghost use Rattle.std.specs.Prelude.{◌≡◌, MatchResult, position};
ghost use Rattle.forms.specs.Words.{end_of_word};
ghost use Rattle.forms.specs.Pieces.{Follows, CutsWord, Ends};

use crate::fault::NotAForm;

// What follows a mark.
pub(crate) fn expect<'a>(text: &'a [u8], mark: &[u8]) -> Result<&'a [u8], NotAForm>
    ensures { Follows mark.now text.now result }
{
    text.strip_prefix(mark).ok_or(NotAForm::Unexpected)
}

// Where the first word ends, if it does: before a space or a closing bracket.
fn end_of_word(text: &[u8]) -> Option<usize>
    ensures { result ≡ position end_of_word text.now }
{
    text.iter().position(|b| *b == b' ' || *b == b')')
}

// A word, which ends before a space or a closing bracket, and what follows it.
pub(crate) fn word(text: &[u8]) -> Result<(&[u8], &[u8]), NotAForm>
    ensures { CutsWord text.now result }
{
    let end = end_of_word(text).ok_or(NotAForm::Unexpected)?;
    Ok(text.split_at(end))
}

// Whether a word can end here.
pub(crate) fn check_end(text: &[u8]) -> Result<(), NotAForm>
    ensures { MatchResult result (λ _. Ends text.now) (λ _. Ends text.now → ⊥) }
{
    match text {
        [b' ' | b')', ..] => Ok(()),
        _ => Err(NotAForm::Unexpected),
    }
}
