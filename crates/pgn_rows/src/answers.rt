use crate::printer::{put, put_effect, state_text};
use crate::readings::{NO_LINE, command_of};
use pgn_answers::BlockState;
use pgn_base::{Command, Seed};
use pgn_block::Block;
use std::alloc::Global;

// The line that drops a block, as the end of a session does.
const DROP: &str = "\\drop";

/// Puts the answers to the lines of a case, which are told to one block.
pub fn put_block(text: &mut Vec<u8>, alloc: Global, case: &str) {
    let mut block = Block::new(alloc, Seed::fixed());
    for line in case.split('\n') {
        put_answer(text, alloc, &mut block, line);
    }
    drop(block);
    put(text, b"=====\n");
}

// A line, and on the same line what it is answered, and the new state where it changes.
fn put_answer(text: &mut Vec<u8>, alloc: Global, block: &mut Block, line: &str) {
    let before = block.state();
    put(text, line.as_bytes());
    put(text, b": ");
    put_line_answer(text, alloc, block, line);
    put_change(text, before, block.state());
    put(text, b"\n");
}

fn put_change(text: &mut Vec<u8>, before: BlockState, after: BlockState) {
    let now = state_text(after);
    if now != state_text(before) {
        put(text, b" -> ");
        put(text, now);
    }
}

fn put_line_answer(text: &mut Vec<u8>, alloc: Global, block: &mut Block, line: &str) {
    if line == DROP {
        block.drop_block();
        put(text, b"dropped");
        return;
    }
    match command_of(alloc, line) {
        Some(command) => put_step(text, block, command),
        None => put(text, NO_LINE),
    }
}

fn put_step(text: &mut Vec<u8>, block: &mut Block, command: Command) {
    match block.step(command) {
        Ok(effect) => {
            put_effect(text, &effect);
            drop(effect);
        }
        Err(_) => put(text, NO_LINE),
    }
}
