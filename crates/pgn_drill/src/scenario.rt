ghost use Rattle.std.specs.Prelude.{◌≡◌, ◌+◌, ◌++◌, ℕ, [], ◌∷◌, IfOk, OnOk, decimal};
ghost use Rattle.pgn_drill.specs.Drill.{AddsLines, await_line, block_lines, drill, next_state, note_lines, notify_line, opening_lines, sent_lines, state_after, up_to};

use itoa::Buffer;
use std::alloc::{AllocError, Global};

/// The text of the scenario of a drill: so many sessions, and so many notifications of each, whose payloads are drawn from the seed.
pub fn drill_text(
    alloc: Global,
    seed: u64,
    sessions: u32,
    notes: u32,
) -> Result<Vec<u8>, AllocError>
    ensures { IfOk result (λ text. text.items ≡ drill seed sessions notes) }
{
    let mut text = Vec::new(alloc);
    let mut state = seed;
    for i in 0..sessions {
        opening(&mut text, sessions, i + 1)?;
        state = sending(&mut text, state, notes)?;
    }
    Ok(text)
}

// The next state of the draws.
fn next(state: u64) -> u64
    ensures { result ≡ next_state state }
{
    let moved = state as u128 * 6364136223846793005 + 1442695040888963407;
    (moved % (1 << 64)) as u64
}

// How a session begins.
fn opening(text: &mut Vec<u8>, sessions: u32, i: u32) -> Result<(), AllocError>
    ensures { OnOk result (AddsLines text.old.items text.new.items (opening_lines sessions i)) }
{
    numbered(text, b"\\session d", i as u64, b" 1\n")?;
    numbered(text, b"LISTEN c", (i % 4) as u64, b"\n")?;
    numbered(text, b"BEGIN\n\\signal up", i as u64, b"\n")?;
    awaits(text, sessions)?;
    put(text, b"COMMIT\n")?;
    Ok(())
}

// A session waits for each of so many.
fn awaits(text: &mut Vec<u8>, sessions: u32) -> Result<(), AllocError>
    ensures { OnOk result (AddsLines text.old.items text.new.items (up_to await_line sessions)) }
{
    for i in 0..sessions {
        numbered(text, b"\\await up", (i + 1) as u64, b"\n")?;
    }
    Ok(())
}

// The notifications of a session, and the state after their draws.
fn sending(text: &mut Vec<u8>, state: u64, notes: u32) -> Result<u64, AllocError>
    ensures { (seed drawn : ℕ) → state ≡ state_after seed drawn
        → IfOk result (λ after.
        (after ≡ state_after seed (drawn + notes))
        × AddsLines text.old.items text.new.items (up_to (sent_lines seed drawn) notes)) }
{
    let mut now = state;
    for k in 0..notes {
        now = next(now);
        note(text, ((k + 1) % 4) as u64, now / 8589934592)?;
    }
    Ok(now)
}

// How a number is sent on a channel.
fn note(text: &mut Vec<u8>, j: u64, r: u64) -> Result<(), AllocError>
    ensures { OnOk result (AddsLines text.old.items text.new.items (note_lines j r)) }
{
    if r % 2 == 0 {
        notify(text, j, r)
    } else {
        in_block(text, j, r)
    }
}

fn notify(text: &mut Vec<u8>, j: u64, r: u64) -> Result<(), AllocError>
    ensures { OnOk result (AddsLines text.old.items text.new.items (notify_line j r ∷ [])) }
{
    numbered(text, b"NOTIFY c", j, b", '")?;
    numbered(text, b"", r, b"'\n")?;
    Ok(())
}

// A number is sent in a block, from which another notification was rolled back.
fn in_block(text: &mut Vec<u8>, j: u64, r: u64) -> Result<(), AllocError>
    ensures { OnOk result (AddsLines text.old.items text.new.items (block_lines j r)) }
{
    put(text, b"BEGIN\nSAVEPOINT s\nNOTIFY gone\nROLLBACK TO s\n")?;
    notify(text, j, r)?;
    put(text, b"COMMIT\n")?;
    Ok(())
}

// A number between two texts.
fn numbered(text: &mut Vec<u8>, head: &[u8], number: u64, tail: &[u8]) -> Result<(), AllocError>
    ensures { OnOk result
        (text.new.items ≡ text.old.items ++ (head.now ++ decimal number ++ tail.now)) }
{
    put(text, head)?;
    put(text, Buffer::new().format(number).as_bytes())?;
    put(text, tail)?;
    Ok(())
}

fn put(text: &mut Vec<u8>, piece: &[u8]) -> Result<(), AllocError>
    ensures { OnOk result (text.new.items ≡ text.old.items ++ piece.now) }
{
    text.extend_from_slice(piece)?;
    Ok(())
}
