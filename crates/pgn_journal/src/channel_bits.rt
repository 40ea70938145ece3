ghost use Rattle.std.specs.Prelude.{◌≡◌};
ghost use Rattle.pgn_base.specs.Interest.{with_channel, interest};
ghost use Rattle.pgn_journal.specs.Interest.{channels_of};

use pgn_base::{Note, channel_bit};

/// On which channels a transaction with these notifications sends: a bit for each of them.
pub fn interest_of_notes(notes: &[Note]) -> u64
    ensures { result ≡ interest (channels_of notes.now) }
{
    let mut word = 0;
    for note in notes {
        word = with_channel(word, note.channel.as_bytes());
    }
    word
}

// With the bit of one more channel.
fn with_channel(word: u64, channel: &[u8]) -> u64
    ensures { result ≡ with_channel word channel.now }
{
    word | 1 << channel_bit(channel)
}
