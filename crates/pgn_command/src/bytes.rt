ghost use Rattle.std.specs.Prelude.{◌≡◌, ◌+◌, ◌≤◌, ◌∷◌, drop, length};
ghost use Rattle.std.specs.List.{list_all, prefix_len};
ghost use Rattle.std.specs.Char.{is_ascii_digit};
ghost use Rattle.pgn_language.specs.Tokens.{is_blank, begins_word, goes_on_word, is_sign};
ghost use Rattle.pgn_command.specs.Lexing.{Starts, IsStart, starts_comment};

// How many bytes are compared side by side.
const GROUP_BYTES: usize = 16;

/// What a byte begins, together with those after it.
#[derive(Clone, Copy)]
pub enum Start {
    Word,
    Number,
    Sign,
    Quoted,
    Literal,
    Nothing,
}

/// What a byte begins, with the bytes after it, where it begins neither a blank nor a comment.
pub fn start_of(first: u8, rest: &[u8]) -> Start
    requires { IsStart (first ∷ rest.now) }
    ensures { Starts result (first ∷ rest.now) }
{
    if begins_word(first) {
        return Start::Word;
    }
    if first.is_ascii_digit() {
        return Start::Number;
    }
    if is_sign(first) {
        return Start::Sign;
    }
    match first {
        b'"' => Start::Quoted,
        b'\'' => Start::Literal,
        _ => Start::Nothing,
    }
}

/// A comment stands at the front.
pub fn is_comment(bytes: &[u8]) -> bool
    ensures { result ≡ starts_comment bytes.now }
{
    matches!(bytes, [b'-', b'-', ..])
}

/// How many bytes at the front are blanks.
pub fn blanks(bytes: &[u8]) -> usize
    ensures value { result ≡ prefix_len is_blank bytes.now }
    ensures within { result ≤ length bytes.now }
{
    let groups = blank_groups(bytes);
    groups + single_blanks(&bytes[groups..])
}

// How many bytes at the front are groups of blanks.
fn blank_groups(bytes: &[u8]) -> usize
    ensures within { result ≤ length bytes.now }
    ensures blanks { prefix_len is_blank bytes.now ≡ result + prefix_len is_blank (drop result bytes.now) }
{
    let mut end = 0;
    while bytes.len() - end >= GROUP_BYTES && are_blank(&bytes[end..end + GROUP_BYTES]) {
        end += GROUP_BYTES;
    }
    end
}

// All bytes of a group are blanks. It looks at each, so that they are compared side by side.
fn are_blank(group: &[u8]) -> bool
    ensures { result ≡ list_all is_blank group.now }
{
    let mut all = true;
    for byte in group {
        all &= is_blank(*byte);
    }
    all
}

fn single_blanks(bytes: &[u8]) -> usize
    ensures value { result ≡ prefix_len is_blank bytes.now }
    ensures within { result ≤ length bytes.now }
{
    for (at, byte) in bytes.iter().enumerate() {
        if !is_blank(*byte) {
            return at;
        }
    }
    bytes.len()
}

/// How many bytes at the front go on with a word.
pub fn word_bytes(bytes: &[u8]) -> usize
    ensures { result ≡ prefix_len goes_on_word bytes.now }
{
    for (at, byte) in bytes.iter().enumerate() {
        if !goes_on_word(*byte) {
            return at;
        }
    }
    bytes.len()
}

/// How many bytes at the front are digits.
pub fn digits(bytes: &[u8]) -> usize
    ensures { result ≡ prefix_len is_ascii_digit bytes.now }
{
    for (at, byte) in bytes.iter().enumerate() {
        if !byte.is_ascii_digit() {
            return at;
        }
    }
    bytes.len()
}

/// Whether a byte is a blank: a space, a tab, CR, a form feed or a vertical tab.
pub fn is_blank(byte: u8) -> bool
    ensures { result ≡ is_blank byte }
{
    byte == b' ' || byte == b'\t' || byte == b'\r' || byte == 12 || byte == 11
}

// An ASCII letter, `_` or a byte of a character past ASCII.
fn begins_word(byte: u8) -> bool
    ensures { result ≡ begins_word byte }
{
    byte.is_ascii_alphabetic() || byte == b'_' || byte >= 128
}

// What a word goes on with: these, ASCII digits and `$`.
fn goes_on_word(byte: u8) -> bool
    ensures { result ≡ goes_on_word byte }
{
    begins_word(byte) || byte.is_ascii_digit() || byte == b'$'
}

fn is_sign(byte: u8) -> bool
    ensures { result ≡ is_sign byte }
{
    byte == b'*' || byte == b',' || byte == b'(' || byte == b')' || byte == b';'
}
