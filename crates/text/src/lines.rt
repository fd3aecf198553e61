//! Cutting a text into lines.
ghost use Rattle.std.specs.Prelude.{◌≡◌, ◌≤◌, ◌==◌, length, take, drop, position};
ghost use Rattle.std.specs.Iterator.{at_most};
ghost use Rattle.text.specs.Cutting.{FirstLine, CutsLine};
ghost use Rattle.text.specs.Lines.{left_of, NextLine};

// Where the first line feed is.
fn first_feed(text: &[u8]) -> Option<usize>
    ensures { result ≡ position (λ b. b == 10) text.now }
{
    text.iter().position(|b| *b == b'\n')
}

// Where the first line ends: after its line feed, or where the text does.
fn end_of_line(text: &[u8]) -> usize
    ensures within { result ≤ length text.now }
    ensures line { FirstLine (take result text.now) (drop result text.now) }
{
    match first_feed(text) {
        Some(feed) => feed + 1,
        None => text.len(),
    }
}

/// The first line of a text, with its line feed if it has one, and what follows it.
pub fn cut_line(text: &[u8]) -> (&[u8], &[u8])
    ensures { CutsLine text.now result.0.now result.1.now }
{
    text.split_at(end_of_line(text))
}

/// The lines of a text, each with its line feed if it has one.
#[derive(Clone, Copy)]
pub struct Lines<'a> {
    rest: &'a [u8],
}

impl<'a> Lines<'a> {
    /// The lines of a text.
    pub fn of(text: &'a [u8]) -> Lines<'a>
        ensures { left_of result ≡ text.now }
    {
        Lines { rest: text }
    }
}

impl<'a> Iterator for Lines<'a> {
    type Item = &'a [u8];

    ghost next_gives = { NextLine };

    ghost remaining = { λ lines. at_most (length (left_of lines)) };

    fn next(&mut self) -> Option<&'a [u8]> {
        if self.rest.is_empty() {
            return None;
        }
        let (line, rest) = cut_line(self.rest);
        self.rest = rest;
        Some(line)
    }
}
