ghost use Rattle.std.specs.Prelude.{◌≡◌, Ok};
ghost use Rattle.pgn_journal.specs.Pieces.{Piece, piece_bytes, IsReadable};
ghost use Rattle.pgn_entry.specs.Pieces.{ArePiece, IsReadAs};
ghost use Rattle.pgn_entry.specs.Reading.{told};

use crate::{EntryView, read_entry};
use pgn_base::Format;

/// The entry or the filler of this format that these bytes are. A caller that takes bytes from the queue knows that they are one.
pub fn read_piece(format: Format, bytes: &[u8]) -> EntryView<'_>
    requires { ArePiece format bytes.now }
    ensures { (piece : Piece) → IsReadable format piece → bytes.now ≡ piece_bytes format piece
        → IsReadAs format piece (told (Ok result)) }
{
    match read_entry(format, bytes) {
        Ok(view) => view,
        Err(_) => unreachable!(),
    }
}
