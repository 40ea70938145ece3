ghost use Rattle.std.specs.Prelude.{◌≡◌, ◌+◌, ◌<◌, ◌≤◌, ◌∷◌, length};
ghost use Rattle.pgn_language.specs.Lines.{lines_of};

use memchr::memchr;

/// The first line, without its LF, and what follows it.
pub fn first_line(text: &[u8]) -> (&[u8], &[u8])
    requires { 0 < length text.now }
    ensures lines { lines_of text.now ≡ result.0.now ∷ lines_of result.1.now }
    ensures shorter { length result.0.now + length result.1.now ≤ length text.now }
    ensures after { length result.1.now < length text.now }
    ensures ended { 0 < length result.1.now
        → length result.0.now + length result.1.now + 1 ≤ length text.now }
{
    match memchr(b'\n', text) {
        Some(at) => (&text[..at], &text[at + 1..]),
        None => text.split_at(text.len()),
    }
}
