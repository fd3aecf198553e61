//! Reading a line.
ghost use Rattle.std.specs.Prelude.{◌≡◌, ◌++◌, ◌||◌, ◌==◌, map, length, take, MatchResult, ◌≢◌};
ghost use Rattle.forms.specs.declared.head.Head.TheVariants.{Taps, Table, Code, Depth, Place};
ghost use Rattle.forms.specs.Forms.{opening, FormsHaveOneText};
ghost use Rattle.prefix.specs.Prefix.{items};
ghost use Rattle.forms.specs.Lines.{nearest, Opens, ReadsBody, ReadsLine};

use crate::fault::NotAForm;
use crate::head::Head;
use crate::line::{CodeLine, Line, PlaceLine, TableLine, TapsLine};
use crate::list::read_list;
use crate::number::number_then;
use crate::prior::Prior;
use crate::word::expect;
use channel::Sample;
use prefix::Prefix;
use table::Entry;

// Which form the line begins as, and what follows its first words.
fn head(line: &[u8]) -> Result<(Head, &[u8]), NotAForm>
    ensures opens { Opens line.now result }
    ensures told { FormsHaveOneText }
{
    if let Ok(rest) = expect(line, b"(place (sample ") {
        return Ok((Head::Place, rest));
    }
    if let Ok(rest) = expect(line, b"(depth ") {
        return Ok((Head::Depth, rest));
    }
    if let Ok(rest) = expect(line, b"(channel (kind taps) (noise ") {
        return Ok((Head::Taps, rest));
    }
    if let Ok(rest) = expect(line, b"(channel (kind table) (noise ") {
        return Ok((Head::Table, rest));
    }
    let rest = expect(line, b"(channel (kind code) (memory ")?;
    Ok((Head::Code, rest))
}

// The end of the line.
fn end(text: &[u8]) -> Result<(), NotAForm>
    ensures { MatchResult result (λ _. length text.now ≡ 0) (λ _. length text.now ≢ 0) }
{
    if text.is_empty() {
        Ok(())
    } else {
        Err(NotAForm::Unexpected)
    }
}

// The number of 16 bits nearest to a number.
fn nearest(number: i32) -> i16
    ensures { result ≡ nearest number }
{
    number.clamp(-32768, 32767) as i16
}

// The numbers of 16 bits nearest to numbers, the first nine of them.
fn narrow(numbers: &[i32]) -> Prefix<i16, 9>
    ensures { items result ≡ take 9 (map nearest numbers.now) }
{
    let mut taps = Prefix::repeat(0, 0);
    for number in numbers {
        taps.push(nearest(*number));
    }
    taps
}

fn read_depth(text: &[u8]) -> Result<Line, NotAForm>
    ensures { ReadsBody Depth text.now result }
{
    let (depth, rest) = number_then(text, b")\n")?;
    end(rest)?;
    Ok(Line::Depth(depth))
}

fn read_code(text: &[u8]) -> Result<Line, NotAForm>
    ensures { ReadsBody Code text.now result }
{
    let (memory, at_first) = number_then(text, b") (masks ")?;
    let (first, at_second) = number_then(at_first, b" ")?;
    let (second, rest) = number_then(at_second, b"))\n")?;
    end(rest)?;
    Ok(Line::Code(CodeLine {
        memory,
        first,
        second,
    }))
}

fn read_taps(text: &[u8]) -> Result<Line, NotAForm>
    ensures { ReadsBody Taps text.now result }
{
    let (noise, at_taps) = number_then(text, b") (taps")?;
    let numbers: Prefix<i32, 9> = read_list(at_taps, 0)?;
    Ok(Line::Taps(TapsLine {
        noise,
        taps: narrow(numbers.as_slice()),
    }))
}

fn read_table(text: &[u8]) -> Result<Line, NotAForm>
    ensures { ReadsBody Table text.now result }
{
    let (noise, at_memory) = number_then(text, b") (memory ")?;
    let (memory, at_entries) = number_then(at_memory, b") (entries")?;
    let entries = read_list(at_entries, Entry::Barred)?;
    Ok(Line::Table(TableLine {
        noise,
        memory,
        entries,
    }))
}

// Whether there are two priors or four.
fn two_or_four(priors: Prefix<Prior, 5>) -> bool
    ensures { result ≡ (length (items priors) == 2 || length (items priors) == 4) }
{
    matches!(priors.as_slice().len(), 2 | 4)
}

fn read_place(text: &[u8]) -> Result<Line, NotAForm>
    ensures { ReadsBody Place text.now result }
{
    let (first, at_second) = number_then(text, b" ")?;
    let (second, at_priors) = number_then(at_second, b") (prior")?;
    let priors = read_list(at_priors, Prior::Barred)?;
    if !two_or_four(priors) {
        return Err(NotAForm::Unexpected);
    }
    Ok(Line::Place(PlaceLine {
        sample: Sample { first, second },
        priors,
    }))
}

// What follows the first words of a form. A `match` over an enum: contracts and definitions name the form that a line begins as.
fn read_body(head: Head, text: &[u8]) -> Result<Line, NotAForm>
    ensures { ReadsBody head text.now result }
{
    match head {
        Head::Taps => read_taps(text),
        Head::Table => read_table(text),
        Head::Code => read_code(text),
        Head::Depth => read_depth(text),
        Head::Place => read_place(text),
    }
}

// What a line says that begins as a form.
fn read_as(line: &[u8], head: Head, text: &[u8]) -> Result<Line, NotAForm>
    requires { line.now ≡ opening head ++ text.now }
    ensures { ReadsLine line.now result }
{
    read_body(head, text)
}

/// What a line says, if it is a form. The line has its line feed.
pub fn read_line(line: &[u8]) -> Result<Line, NotAForm>
    ensures reads { ReadsLine line.now result }
    ensures told { FormsHaveOneText }
{
    let (head, text) = head(line)?;
    read_as(line, head, text)
}
