use crate::printer::{put, put_number};
use pgn_base::Format;
use pgn_options::{Asked, WordsFault, read_words};
use std::alloc::{AllocError, Global};

/// Puts what the words of a case ask for, a word a line.
pub fn put_asked(text: &mut Vec<u8>, alloc: Global, case: &str) {
    match case.lines().collect::<Vec<&str>>(alloc) {
        Ok(words) => {
            put_reading(text, alloc, words.as_slice());
            drop(words);
        }
        Err(AllocError) => put(text, b"no memory"),
    }
    put(text, b"\n");
}

fn put_reading(text: &mut Vec<u8>, alloc: Global, words: &[&str]) {
    match read_words(alloc, words) {
        Ok(asked) => put_numbers(text, asked),
        Err(WordsFault::BadWords) => put(text, b"no command"),
        Err(WordsFault::Memory) => put(text, b"no memory"),
    }
}

fn put_numbers(text: &mut Vec<u8>, asked: Asked) {
    match asked {
        Asked::Run {
            pages,
            patience,
            format,
            live,
        } => {
            put_settings(text, b"run ", pages, patience, format);
            if live {
                put(text, b" live");
            }
        }
        Asked::Drill {
            seed,
            sessions,
            notes,
        } => {
            put_number(text, b"drill ", seed);
            put_number(text, b" ", u64::from(sessions));
            put_number(text, b" ", u64::from(notes));
        }
        Asked::Wire => put(text, b"wire"),
        Asked::Check {
            pages,
            patience,
            format,
        } => put_settings(text, b"check ", pages, patience, format),
        Asked::Serve { seats } => put_number(text, b"serve ", u64::from(seats)),
    }
}

// The word of a command, and the numbers behind it.
fn put_settings(text: &mut Vec<u8>, word: &[u8], pages: u32, patience: u64, format: Format) {
    put_number(text, word, u64::from(pages));
    put_number(text, b" ", patience);
    match format {
        Format::One => put(text, b" 1"),
        Format::Two => put(text, b" 2"),
    }
}
