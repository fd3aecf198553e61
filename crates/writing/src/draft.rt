//! A text in the making.
ghost use Rattle.std.specs.Prelude.{◌≡◌, [], ◌++◌, length};
ghost use Rattle.writing.specs.Drafts.{Room, Stands};

use crate::short::TooShort;
use prefix::Prefix;
use std::marker::Model;

/// A text of at most 28,672 bytes.
#[derive(Drop)]
pub struct Draft {
    text: Prefix<u8, 28_672>,
}

impl Model for Draft {
    ghost use Rattle.std.specs.Prelude.{ℕ, List};
    ghost use Rattle.prefix.specs.Prefix.{items};

    ghost Value = { List ℕ };

    ghost view = { λ d. items d.text };
}

impl Draft {
    /// An empty draft.
    pub(crate) fn new() -> Draft
        ensures { result ≡ [] }
    {
        Draft {
            text: Prefix::repeat(0, 0),
        }
    }

    /// Puts bytes after what it holds.
    pub(crate) fn put(&mut self, bytes: &[u8])
        requires { Room (length bytes.now) self.old }
        ensures { self.new ≡ self.old ++ bytes.now }
    {
        self.text.extend_from_slice(bytes);
    }

    /// What it holds.
    fn text(&self) -> &[u8]
        ensures { result.now ≡ self.now }
    {
        self.text.as_slice()
    }

    /// What it holds at the front of a list, if there is room for it, and its length.
    pub(crate) fn hand_over(&self, out: &mut [u8]) -> Result<usize, TooShort>
        ensures { Stands self.now out.old out.new result }
    {
        let text = self.text();
        if out.len() < text.len() {
            return Err(TooShort);
        }
        out[0..text.len()].copy_from_slice(text);
        Ok(text.len())
    }
}
