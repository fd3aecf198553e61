//! Reading the lists of a line.
ghost use Rattle.std.specs.Prelude.{◌≤◌};
ghost use Rattle.forms.specs.Pieces.{TakesList};

use crate::fault::NotAForm;
use crate::piece::Piece;
use prefix::Prefix;

// Pieces to the end of a line, each after a space. The first of them are held, as many as there is room for.
pub(crate) fn read_list<P: Piece, const N: usize>(
    text: &[u8],
    blank: P,
) -> Result<Prefix<P, N>, NotAForm>
    requires { 1 ≤ N }
    ensures { TakesList P.Piece.written P.Piece.lawful N text.now result }
{
    let mut pieces = Prefix::repeat(blank, 0);
    let mut rest = text;
    while let [b' ', after @ ..] = rest {
        let (piece, next) = P::read(after)?;
        pieces.push(piece);
        rest = next;
    }
    if !pieces.as_slice().is_empty() && rest == b"))\n".as_slice() {
        Ok(pieces)
    } else {
        Err(NotAForm::Unexpected)
    }
}
