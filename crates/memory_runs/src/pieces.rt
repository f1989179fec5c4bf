//! Pieces of a text.

ghost use Rattle.std.specs.Prelude.{◌↔◌, IsTrue};
ghost use Rattle.memory_runs.specs.Pieces.{HasPiece};

/// Whether a piece stands somewhere in a text.
pub fn holds(text: &[u8], piece: &[u8]) -> bool
    ensures { IsTrue result ↔ HasPiece text.now piece.now }
{
    for start in 0..=text.len() {
        if text[start..].starts_with(piece) {
            return true;
        }
    }
    false
}
