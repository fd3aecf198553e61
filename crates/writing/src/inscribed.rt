//! The line of any channel, written.
ghost use Rattle.std.specs.Prelude.{◌≤◌, length};
ghost use Rattle.forms.specs.Forms.{text_of};
ghost use Rattle.writing.specs.Drafts.{Stands};

use crate::short::TooShort;
use kinds::Spelled;

/// A channel whose line can be written.
pub trait Inscribed: Spelled {
    /// Writes its line at the front of a list, and answers its length; or refuses and leaves the list, if that is too short.
    fn write_line(&self, out: &mut [u8]) -> Result<usize, TooShort>
        ensures stands { Stands (text_of (Self.Spelled.form self.now)) out.old out.new result }
        ensures short { length (text_of (Self.Spelled.form self.now)) ≤ 6800 };
}
