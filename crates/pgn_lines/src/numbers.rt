ghost use Rattle.std.specs.Prelude.{◌≡◌, ◌≢◌, ◌<◌, ℕ, List, ◌++◌, decimal, IsTrue, MatchOption, ◌↔◌};
ghost use Rattle.pgn_lines.specs.Fields.{IsLed, IsNumber, NoNumber, NotLed, NotParted, IsParted};
ghost use Rattle.pgn_lines.specs.Shown.{IsLong, IsSession, IsShort, IsXid};

use itoa::Buffer;
use pgn_base::{FIRST_XID, SECTIONS_MAX, SessionNo, Xid};

/// What follows a start.
pub fn after<'a>(text: &'a str, start: &str) -> Option<&'a str>
    ensures { MatchOption result
        ((rest : List ℕ) → text.now ≢ start.now ++ rest)
        (λ rest. text.now ≡ start.now ++ rest.now) }
{
    text.strip_prefix(start)
}

/// What stands before an end.
pub fn before<'a>(text: &'a str, end: &str) -> Option<&'a str>
    ensures { MatchOption result
        ((front : List ℕ) → text.now ≢ front ++ end.now)
        (λ front. text.now ≡ front.now ++ end.now) }
{
    text.strip_suffix(end)
}

/// The number of 64 bits of which this is the text, without a sign or a leading zero.
pub fn long(text: &str) -> Option<u64>
    ensures { MatchOption result (NoNumber IsLong text.now) (IsNumber IsLong text.now) }
{
    let Ok(number) = text.parse::<u64>() else {
        return None;
    };
    if is_text_of(number, text) {
        Some(number)
    } else {
        None
    }
}

// The number is written so.
fn is_text_of(number: u64, text: &str) -> bool
    ensures { IsTrue result ↔ (decimal number ≡ text.now) }
{
    let mut buffer = Buffer::new();
    buffer.format(number).as_bytes() == text.as_bytes()
}

/// The number of 32 bits of which this is the text.
pub fn short(text: &str) -> Option<u32>
    ensures { MatchOption result (NoNumber IsShort text.now) (IsNumber IsShort text.now) }
{
    let number = long(text)?;
    if number > u64::from(u32::MAX) {
        return None;
    }
    Some(number as u32)
}

/// The transaction number of which this is the text.
pub fn xid(text: &str) -> Option<Xid>
    ensures { MatchOption result (NoNumber IsXid text.now) (IsNumber IsXid text.now) }
{
    let number = short(text)?;
    if number >= FIRST_XID {
        Some(Xid::new(number))
    } else {
        None
    }
}

/// The session's number of which this is the text.
pub fn session(text: &str) -> Option<SessionNo>
    ensures { MatchOption result (NoNumber IsSession text.now) (IsNumber IsSession text.now) }
{
    let number = short(text)?;
    if number >= 1 && number <= SECTIONS_MAX {
        Some(SessionNo::new(number))
    } else {
        None
    }
}

/// What stands before a mark that no number has, and what follows it.
pub fn parted(text: &str, mark: char) -> Option<(&str, &str)>
    requires { mark < 48 }
    ensures { MatchOption result
        (NotParted mark text.now)
        (λ parts. IsParted mark text.now parts.0.now parts.1.now) }
{
    text.split_once(mark)
}

/// The number of 64 bits that a text begins with, and what follows a blank and a word after it.
pub fn long_then<'a>(text: &'a str, word: &str) -> Option<(u64, &'a str)>
    ensures { MatchOption result
        (NotLed IsLong text.now word.now)
        (λ led. IsLed IsLong text.now word.now led.0 led.1.now) }
{
    let Some((digits, tail)) = parted(text, ' ') else {
        return None;
    };
    let Some(number) = long(digits) else {
        return None;
    };
    let Some(rest) = after(tail, word) else {
        return None;
    };
    Some((number, rest))
}

/// The number of 32 bits that a text begins with, and what follows a blank and a word after it.
pub fn short_then<'a>(text: &'a str, word: &str) -> Option<(u32, &'a str)>
    ensures { MatchOption result
        (NotLed IsShort text.now word.now)
        (λ led. IsLed IsShort text.now word.now led.0 led.1.now) }
{
    let Some(led) = long_then(text, word) else {
        return None;
    };
    let Ok(number) = u32::try_from(led.0) else {
        return None;
    };
    Some((number, led.1))
}

/// The transaction number that a text begins with, and what follows a blank and a word after it.
pub fn xid_then<'a>(text: &'a str, word: &str) -> Option<(Xid, &'a str)>
    ensures { MatchOption result
        (NotLed IsXid text.now word.now)
        (λ led. IsLed IsXid text.now word.now led.0 led.1.now) }
{
    let Some(led) = short_then(text, word) else {
        return None;
    };
    if led.0 >= FIRST_XID {
        Some((Xid::new(led.0), led.1))
    } else {
        None
    }
}

/// The session's number that a text begins with, and what follows a blank and a word after it.
pub fn session_then<'a>(text: &'a str, word: &str) -> Option<(SessionNo, &'a str)>
    ensures { MatchOption result
        (NotLed IsSession text.now word.now)
        (λ led. IsLed IsSession text.now word.now led.0 led.1.now) }
{
    let Some(led) = short_then(text, word) else {
        return None;
    };
    if led.0 >= 1 && led.0 <= SECTIONS_MAX {
        Some((SessionNo::new(led.0), led.1))
    } else {
        None
    }
}
