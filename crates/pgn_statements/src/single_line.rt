ghost use Rattle.std.specs.Prelude.{◌≡◌, map, IfOk};
ghost use Rattle.pgn_requests.specs.Texts.{one_line, unbroken};

use memchr::memchr;
use pgn_language::LineText;
use std::alloc::{AllocError, Global};

/// A text as one line: each line feed is a blank.
pub(crate) fn one_line(alloc: Global, text: &str) -> Result<LineText, AllocError>
    ensures { IfOk result (λ line. line ≡ one_line text.now) }
{
    if memchr(b'\n', text.as_bytes()).is_none() {
        return LineText::new(alloc, text);
    }
    let bytes = unbroken_bytes(alloc, text.as_bytes())?;
    let made = String::from_utf8(bytes).unwrap();
    LineText::new(alloc, made.as_str())
}

fn unbroken_bytes(alloc: Global, text: &[u8]) -> Result<Vec<u8>, AllocError>
    ensures { IfOk result (λ made. made.items ≡ map unbroken text.now) }
{
    let mut made = Vec::with_capacity(alloc, text.len())?;
    for byte in text {
        made.push(unbroken(*byte))?;
    }
    Ok(made)
}

fn unbroken(byte: u8) -> u8
    ensures { result ≡ unbroken byte }
{
    if byte == b'\n' { b' ' } else { byte }
}
