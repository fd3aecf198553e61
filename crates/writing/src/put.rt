//! Putting what is written into a draft.
ghost use Rattle.std.specs.Prelude.{◌≡◌, ℕ, ◌+◌, ◌*◌, ◌≤◌, List, ◌∷◌, ◌++◌, length};
ghost use Rattle.std.specs.List.{flat_map};
ghost use Rattle.forms.specs.Forms.{listed};
ghost use Rattle.writing.specs.Drafts.{Room};

use crate::draft::Draft;
use itoa::{Buffer, Integer};

/// What can be put into a draft.
pub(crate) trait Put {
    ghost text: { Self → List ℕ };

    ghost most: { ℕ };

    /// Puts its text after what a draft holds. The text has at most so many bytes.
    fn put(&self, draft: &mut Draft)
        requires { Room most draft.old }
        ensures text { draft.new ≡ draft.old ++ text self.now }
        ensures short { length (text self.now) ≤ most };
}

// A number in decimal.
pub(crate) fn put_number<I: Integer>(draft: &mut Draft, number: I)
    requires { Room I.MAX_STR_LEN draft.old }
    ensures text { draft.new ≡ draft.old ++ I.text number }
    ensures short { length (I.text number) ≤ I.MAX_STR_LEN }
{
    let mut buffer = Buffer::new();
    let text = buffer.format(number).as_bytes();
    draft.put(text);
}

// Words, and what is written after them.
pub(crate) fn put_after<P: Put>(draft: &mut Draft, words: &[u8], piece: &P)
    requires { Room (length words.now + P.most) draft.old }
    ensures text { draft.new ≡ draft.old ++ (words.now ++ P.text piece.now) }
    ensures short { length (P.text piece.now) ≤ P.most }
{
    draft.put(words);
    piece.put(draft);
}

// Pieces, each after a space.
fn put_pieces<P: Put>(draft: &mut Draft, pieces: &[P])
    requires { Room ((P.most + 1) * length pieces.now) draft.old }
    ensures text { draft.new ≡ draft.old ++ flat_map (λ x. 32 ∷ P.text x) pieces.now }
    ensures short { length (flat_map (λ x. 32 ∷ P.text x) pieces.now) ≤ (P.most + 1) * length pieces.now }
{
    for piece in pieces {
        put_after(draft, b" ", piece);
    }
}

// Words, and pieces to the end of a line, each after a space.
pub(crate) fn put_list<P: Put>(draft: &mut Draft, words: &[u8], pieces: &[P])
    requires { Room (length words.now + ((P.most + 1) * length pieces.now + 3)) draft.old }
    ensures text { draft.new ≡ draft.old ++ (words.now ++ listed P.text pieces.now) }
    ensures short { length (listed P.text pieces.now) ≤ (P.most + 1) * length pieces.now + 3 }
{
    draft.put(words);
    put_pieces(draft, pieces);
    draft.put(b"))\n");
}
