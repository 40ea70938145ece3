ghost use Rattle.std.specs.Prelude.{◌≡◌, ◌<◌};
ghost use Rattle.pgn_base.specs.Interest.{channel_bit};
ghost use Rattle.pgn_base.specs.declared.channels.TheConstants.{CHANNEL_BITS};

/// A channel has one of so many bits.
pub const CHANNEL_BITS: usize = 64;

/// The bit of a channel, from 0 to 63: the sum of its bytes, in as many bits as there are. It takes no memory.
pub fn channel_bit(channel: &[u8]) -> u64
    ensures value { result ≡ channel_bit channel.now }
    ensures within { result < CHANNEL_BITS }
{
    let mut sum = 0;
    for byte in channel {
        sum = (sum + u64::from(*byte)) % CHANNEL_BITS as u64;
    }
    sum
}
