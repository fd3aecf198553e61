//! The pieces that a line has lists of.
ghost use Rattle.std.specs.Prelude.{ℕ, List};
ghost use Rattle.forms.specs.Pieces.{Takes, Told};

use crate::fault::NotAForm;

/// What a line can have a list of.
pub(crate) trait Piece: Copy {
    ghost written: { Self → List ℕ };

    ghost lawful: { Self → Type 0 };

    /// A piece and what follows it.
    fn read(text: &[u8]) -> Result<(Self, &[u8]), NotAForm>
        ensures { Takes written lawful text.now result };

    ghost told: { Told written lawful };
}
