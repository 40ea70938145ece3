ghost use Rattle.std.specs.Prelude.{◌≡◌, ◌^◌, ◌<◌, ◌≤◌};
ghost use Rattle.pgn_base.specs.declared.limits.TheConstants.{FIRST_XID};
ghost use Rattle.pgn_words.specs.Positions.{position_in, mark_in, place_in, packed};

use pgn_base::Xid;
use pgn_layout::Pos;

/// A word has a mark above so many places.
const PLACES: u64 = 1 << 32;

/// What a session's position says.
#[derive(Clone, Copy, PartialEq, Eq)]
pub enum PosWord {
    /// The session is no listener.
    Out,
    /// It becomes one.
    Joining,
    /// It has read everything below its mark, and the transaction numbered by the mark begins at this place.
    At { mark: Xid, pos: Pos },
}

// What a word says as a position: 0, 1, or a mark and below it the place in 32 bits.
pub(crate) fn position_of(word: u64) -> PosWord
    requires { 2 ≤ word → FIRST_XID ≤ mark_in word }
    ensures { result ≡ position_in word }
{
    match word {
        0 => PosWord::Out,
        1 => PosWord::Joining,
        _ => {
            let (mark, pos) = parts_of(word);
            PosWord::At { mark, pos }
        }
    }
}

// The mark and the place in a word.
pub(crate) fn parts_of(word: u64) -> (Xid, Pos)
    requires { FIRST_XID ≤ mark_in word }
    ensures mark { result.0 ≡ mark_in word }
    ensures place { result.1 ≡ place_in word }
{
    let mark = Xid::new((word / PLACES) as u32);
    (mark, Pos::new(word % PLACES))
}

// The word of a mark and a place.
pub(crate) fn word_of(mark: Xid, pos: Pos) -> u64
    requires { pos < 2 ^ 32 }
    ensures { result ≡ packed mark pos }
{
    u64::from(mark.get()) * PLACES + pos.get()
}
