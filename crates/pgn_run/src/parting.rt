ghost use Rattle.std.specs.Prelude.{◌≡◌, ◌≤◌, length, take, drop, Some, None, IfSome, MatchOption};
ghost use Rattle.std.specs.List.{after_first, position_or_len};
ghost use Rattle.pgn_run.specs.Checking.{ends_line, parts_of};

use memchr::memchr;

// The line between the two parts.
const OUTPUT_LINE: &[u8] = b"\\output";

/// The scenario and the output text of an input of `check`: what stands before the first line that is `\output`, and what stands
/// behind it, where there is such a line.
pub(crate) fn parts(input: &[u8]) -> Option<(&[u8], &[u8])>
    ensures parts { MatchOption result (parts_of input.now ≡ None) (λ parts.
        parts_of input.now ≡ Some (record { scenario = parts.0.now; output = parts.1.now })) }
    ensures shorter { IfSome result (λ parts. length parts.1.now ≤ length input.now) }
{
    let at = output_line(input)?;
    Some((&input[..at], behind_line(&input[at..])))
}

// Where the first line that is `\output` begins.
fn output_line(input: &[u8]) -> Option<usize>
    ensures line { MatchOption result (parts_of input.now ≡ None) (λ at.
        parts_of input.now ≡ Some (record {
          scenario = take at input.now;
          output = after_first ends_line (drop at input.now);
        })) }
    ensures within { IfSome result (λ at. at ≤ length input.now) }
{
    let mut at = 0;
    while at < input.len() {
        let rest = &input[at..];
        let length = line_length(rest);
        if &rest[..length] == OUTPUT_LINE {
            return Some(at);
        }
        at += length + 1;
    }
    None
}

// How many bytes the first line of a text has, without its line feed.
fn line_length(text: &[u8]) -> usize
    ensures length { result ≡ position_or_len ends_line text.now }
    ensures within { result ≤ length text.now }
{
    match memchr(b'\n', text) {
        Some(end) => end,
        None => text.len(),
    }
}

// What stands behind the first line of a text.
fn behind_line(text: &[u8]) -> &[u8]
    ensures behind { result.now ≡ after_first ends_line text.now }
    ensures shorter { length result.now ≤ length text.now }
{
    let end = line_length(text);
    if end == text.len() {
        return &[];
    }
    &text[end + 1..]
}
