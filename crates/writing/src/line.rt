//! Writing one line.
ghost use Rattle.std.specs.Prelude.{◌≡◌, ℕ, ◌+◌, ◌≤◌, ◌++◌, length};
ghost use Rattle.forms.specs.Forms.{Form as Forms, opening, head_of, body_of, text_of};
ghost use Rattle.writing.specs.Drafts.{Room, Stands};

use crate::draft::Draft;
use crate::short::TooShort;

/// What can be written as a line: a channel, a depth or a place.
pub(crate) trait Line {
    ghost form: { Self → Forms };

    ghost most: { ℕ };

    /// The words that the line begins with.
    fn opening(&self) -> &[u8]
        ensures words { result.now ≡ opening (head_of (form self.now)) }
        ensures short { length result.now ≤ 29 };

    /// Puts what follows them into a draft. It has at most so many bytes.
    fn put_body(&self, draft: &mut Draft)
        requires { Room most draft.old }
        ensures text { draft.new ≡ draft.old ++ body_of (form self.now) }
        ensures short { length (body_of (form self.now)) ≤ most };

    ghost short: { most ≤ 6740 };
}

// The line after what a draft holds.
pub(crate) fn put_line<L: Line>(draft: &mut Draft, line: &L)
    requires { Room (29 + L.most) draft.old }
    ensures text { draft.new ≡ draft.old ++ text_of (L.form line.now) }
    ensures short { length (text_of (L.form line.now)) ≤ 29 + L.most }
{
    draft.put(line.opening());
    line.put_body(draft);
}

/// Writes a line at the front of a list, and answers its length; or refuses and leaves the list, if that is too short.
pub fn write_line<L: Line>(line: &L, out: &mut [u8]) -> Result<usize, TooShort>
    ensures stands { Stands (text_of (L.form line.now)) out.old out.new result }
    ensures short { length (text_of (L.form line.now)) ≤ 6800 }
{
    let mut draft = Draft::new();
    put_line(&mut draft, line);
    draft.hand_over(out)
}
