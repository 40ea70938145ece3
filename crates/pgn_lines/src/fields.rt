ghost use Rattle.std.specs.Prelude.{MatchOption};
ghost use Rattle.pgn_lines.specs.Fields.{IsHolder, IsNumbered, IsTwo, NoHolder, NotNumbered, NotTwo};
ghost use Rattle.pgn_lines.specs.Shown.{IsLong, IsShort, IsXid};

use crate::numbers::{after, long, session, short, xid, xid_then};
use pgn_base::{SessionNo, Xid};

/// The transaction number after a start.
pub fn one_xid(line: &str, start: &str) -> Option<Xid>
    ensures { MatchOption result
        (NotNumbered IsXid start.now line.now)
        (IsNumbered IsXid start.now line.now) }
{
    let Some(rest) = after(line, start) else {
        return None;
    };
    xid(rest)
}

/// The two transaction numbers after a start.
#[inline(always)]
pub fn two_xids(line: &str, start: &str) -> Option<(Xid, Xid)>
    ensures { MatchOption result
        (NotTwo start.now line.now)
        (λ two. IsTwo start.now line.now two.0 two.1) }
{
    let Some(rest) = after(line, start) else {
        return None;
    };
    let Some(first) = xid_then(rest, "") else {
        return None;
    };
    let Some(second) = xid(first.1) else {
        return None;
    };
    Some((first.0, second))
}

/// The number of 32 bits after a start.
pub fn one_short(line: &str, start: &str) -> Option<u32>
    ensures { MatchOption result
        (NotNumbered IsShort start.now line.now)
        (IsNumbered IsShort start.now line.now) }
{
    let Some(rest) = after(line, start) else {
        return None;
    };
    short(rest)
}

/// The number of 64 bits after a start.
pub fn one_long(line: &str, start: &str) -> Option<u64>
    ensures { MatchOption result
        (NotNumbered IsLong start.now line.now)
        (IsNumbered IsLong start.now line.now) }
{
    let Some(rest) = after(line, start) else {
        return None;
    };
    long(rest)
}

/// Who holds the floor, if anybody does, in a text that says it.
pub fn holder(text: &str) -> Option<Option<SessionNo>>
    ensures { MatchOption result (NoHolder text.now) (IsHolder text.now) }
{
    if text == "none" {
        return Some(None);
    }
    let number = session(text)?;
    Some(Some(number))
}
