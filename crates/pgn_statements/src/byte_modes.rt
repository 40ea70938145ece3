ghost use Rattle.std.specs.Prelude.{◌≡◌, ◌==◌, ◌+◌, ◌<◌, ◌≤◌, ◌^◌, [], ◌∷◌, ◌++◌, cond, OnOk};
ghost use Rattle.pgn_requests.specs.Texts.{ends_line, entered, commented, left, next_mode, given, mode_gives, end_gives};
ghost use Rattle.pgn_statements.specs.Modes.{depth_of};

use pgn_requests::Mode;
use std::alloc::AllocError;

/// Where the byte after this one stands.
pub(crate) fn next_mode(mode: Mode, byte: u8) -> Mode
    requires { depth_of mode < 2 ^ 31 }
    ensures mode { result ≡ next_mode mode byte }
    ensures depth { depth_of result ≤ depth_of mode + 1 }
{
    match mode {
        Mode::Outside => entered(byte),
        Mode::Slash if byte == b'*' => Mode::Comment { depth: 0 },
        Mode::Slash => entered(byte),
        Mode::Dash if byte == b'-' => Mode::Rest,
        Mode::Dash => entered(byte),
        Mode::Single if byte == b'\'' => Mode::Outside,
        Mode::Single => Mode::Single,
        Mode::Double if byte == b'"' => Mode::Outside,
        Mode::Double => Mode::Double,
        Mode::Comment { depth } => commented(depth, byte),
        Mode::Star { depth } if byte == b'/' => left(depth),
        Mode::Star { depth } => commented(depth, byte),
        Mode::Open { depth } if byte == b'*' => Mode::Comment { depth: depth + 1 },
        Mode::Open { depth } => commented(depth, byte),
        Mode::Rest if ends_line(byte) => Mode::Outside,
        Mode::Rest => Mode::Rest,
    }
}

// A comment to the end of the line ends with this byte.
fn ends_line(byte: u8) -> bool
    ensures { result ≡ ends_line byte }
{
    byte == b'\n' || byte == b'\r'
}

// After a byte outside of quotes and comments.
fn entered(byte: u8) -> Mode
    ensures mode { result ≡ entered byte }
    ensures depth { depth_of result ≡ 0 }
{
    match byte {
        b'/' => Mode::Slash,
        b'-' => Mode::Dash,
        b'\'' => Mode::Single,
        b'"' => Mode::Double,
        _ => Mode::Outside,
    }
}

// After a byte in a comment, which may end it or begin one more.
fn commented(depth: u32, byte: u8) -> Mode
    ensures mode { result ≡ commented depth byte }
    ensures depth { depth_of result ≡ depth }
{
    match byte {
        b'*' => Mode::Star { depth },
        b'/' => Mode::Open { depth },
        _ => Mode::Comment { depth },
    }
}

// After a comment.
fn left(depth: u32) -> Mode
    ensures mode { result ≡ left depth }
    ensures depth { depth_of result ≤ depth }
{
    if depth == 0 {
        return Mode::Outside;
    }
    Mode::Comment { depth: depth - 1 }
}

/// Puts what a byte gives where it stands behind a text.
pub(crate) fn give(text: &mut Vec<u8>, mode: Mode, byte: u8) -> Result<(), AllocError>
    ensures { OnOk result (text.new.items ≡ text.old.items ++ mode_gives mode byte) }
{
    match mode {
        Mode::Outside => give_outside(text, byte),
        Mode::Slash => give_after(text, b'/', b'*', byte),
        Mode::Dash => give_after(text, b'-', b'-', byte),
        Mode::Single | Mode::Double => put(text, byte),
        Mode::Star { depth } if byte == b'/' && depth == 0 => put(text, b' '),
        Mode::Rest if ends_line(byte) => put(text, b' '),
        Mode::Comment { .. } | Mode::Star { .. } | Mode::Open { .. } | Mode::Rest => Ok(()),
    }
}

// What a byte outside gives: a line feed is a blank, and what may begin a comment is held back.
fn give_outside(text: &mut Vec<u8>, byte: u8) -> Result<(), AllocError>
    ensures { OnOk result (text.new.items ≡ text.old.items ++ given byte) }
{
    match byte {
        b'\n' => put(text, b' '),
        b'/' | b'-' => Ok(()),
        _ => put(text, byte),
    }
}

// What a byte after one that was held back gives: nothing where the two begin a comment.
fn give_after(text: &mut Vec<u8>, held: u8, begins: u8, byte: u8) -> Result<(), AllocError>
    ensures { OnOk result (text.new.items ≡ text.old.items ++ cond (byte == begins) [] (held ∷ given byte)) }
{
    if byte == begins {
        return Ok(());
    }
    put(text, held)?;
    give_outside(text, byte)
}

/// Puts what the end of a text gives behind it.
pub(crate) fn give_end(text: &mut Vec<u8>, mode: Mode) -> Result<(), AllocError>
    ensures { OnOk result (text.new.items ≡ text.old.items ++ end_gives mode) }
{
    match mode {
        Mode::Outside | Mode::Single | Mode::Double | Mode::Rest => Ok(()),
        Mode::Dash => put(text, b'-'),
        Mode::Slash | Mode::Comment { .. } | Mode::Star { .. } | Mode::Open { .. } => put(
            text, b'/',
        ),
    }
}

fn put(text: &mut Vec<u8>, byte: u8) -> Result<(), AllocError>
    ensures { OnOk result (text.new.items ≡ text.old.items ++ byte ∷ []) }
{
    text.push(byte)?;
    Ok(())
}
