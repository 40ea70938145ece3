ghost use Rattle.std.specs.Prelude.{◌≡◌, ◌+◌, ◌<◌, ◌≤◌, not, true, length, reverse, slice_index};
ghost use Rattle.std.specs.List.{prefix_len};
ghost use Rattle.pgn_language.specs.Tokens.{is_blank};
ghost use Rattle.pgn_language.specs.Lines.{is_gap};

use pgn_command::is_blank;

/// Where the blanks at the end begin.
pub fn blanks_after(bytes: &[u8]) -> usize
    ensures value { result + prefix_len is_blank (reverse bytes.now) ≡ length bytes.now }
    ensures blank { result < length bytes.now → is_blank (slice_index bytes.now result) ≡ true }
{
    let mut end = bytes.len();
    while end > 0 && is_blank(bytes[end - 1]) {
        end -= 1;
    }
    end
}

/// How many bytes at the front are spaces or tabs.
pub fn gap_bytes(bytes: &[u8]) -> usize
    ensures value { result ≡ prefix_len is_gap bytes.now }
    ensures within { result ≤ length bytes.now }
{
    let mut at = 0;
    while at < bytes.len() && is_gap(bytes[at]) {
        at += 1;
    }
    at
}

/// How many bytes at the front are neither spaces nor tabs.
pub fn part_bytes(bytes: &[u8]) -> usize
    ensures value { result ≡ prefix_len (λ byte. not (is_gap byte)) bytes.now }
    ensures within { result ≤ length bytes.now }
{
    let mut at = 0;
    while at < bytes.len() && !is_gap(bytes[at]) {
        at += 1;
    }
    at
}

// A space or a tab.
fn is_gap(byte: u8) -> bool
    ensures { result ≡ is_gap byte }
{
    byte == b' ' || byte == b'\t'
}
