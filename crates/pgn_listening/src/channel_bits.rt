ghost use Rattle.std.specs.Prelude.{◌≡◌, ℕ, ◌+◌, ◌^◌, ◌<◌, ◌≤◌, true, not, List, [], ◌∷◌, ◌++◌, filter, get_or, bytes_eq};
ghost use Rattle.pgn_base.specs.Names.{has_name};
ghost use Rattle.pgn_listening.specs.Listening.{AreOnce};
ghost use Rattle.pgn_base.specs.Interest.{channel_bit};
ghost use Rattle.pgn_listening.specs.Bits.{AreBits};

use pgn_base::{CHANNEL_BITS, channel_bit};

/// The channels of a set as bits, with how many of them have each bit, so that one that is left needs no look at the others.
#[derive(Clone, Copy, Drop)]
pub struct ChannelBits {
    word: u64,
    counts: [usize; CHANNEL_BITS],
}

impl ChannelBits {
    pub(crate) fn new() -> ChannelBits
        ensures { AreBits [] result }
    {
        ChannelBits {
            word: 0,
            counts: [0; CHANNEL_BITS],
        }
    }

    // A bit for each channel.
    pub(crate) fn word(&self) -> u64
        ensures { result ≡ self.now.word }
    {
        self.word
    }

    // Puts one more channel in.
    pub(crate) fn put(&mut self, channel: &[u8])
        requires room { get_or self.old.counts (channel_bit channel.now) 0 + 1 < 2 ^ 64 }
        ensures { (channels : List (List ℕ)) → AreBits channels self.old
            → AreBits (channels ++ channel.now ∷ []) self.new }
    {
        let bit = channel_bit(channel);
        self.word |= mask_of(bit);
        self.counts[bit as usize] += 1;
    }

    // Takes a channel out of those that stand once each.
    pub(crate) fn take_out(&mut self, channel: &[u8])
        requires there { 1 ≤ get_or self.old.counts (channel_bit channel.now) 0 }
        ensures { (channels : List (List ℕ)) → AreBits channels self.old → AreOnce channels
            → has_name channels channel.now ≡ true
            → AreBits (filter (λ other. not (bytes_eq channel.now other)) channels) self.new }
    {
        let bit = channel_bit(channel);
        let left = self.counts[bit as usize] - 1;
        self.counts[bit as usize] = left;
        if left == 0 {
            self.word ^= mask_of(bit);
        }
    }
}

// The number that has one bit alone.
fn mask_of(bit: u64) -> u64
    requires { bit < 64 }
    ensures { result ≡ 2 ^ bit }
{
    1 << bit
}
