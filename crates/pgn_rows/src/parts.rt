ghost use Rattle.std.specs.Prelude.{◌<◌, length, IfSome};

use crate::answers::put_block;
use crate::command_lines::put_asked;
use crate::printer::put;
use crate::readings::{put_line, put_scenario};
use memchr::memmem;
use pgn_base::LINE_BYTES_MAX;
use std::alloc::{AllocError, Global};
use std::str;

// What follows each case of an input.
const END_OF_CASE: &[u8] = b"\n=====\n";

// The character `…`: it and the byte after it stand for many of that byte.
const MANY: &[u8] = b"\xe2\x80\xa6";

/// Puts what the input of the row of this name comes to, case by case or line by line.
pub fn put_parts(text: &mut Vec<u8>, alloc: Global, name: &str, input: &[u8]) {
    let Some((_, kind)) = name.rsplit_once('.') else {
        put(text, b"no kind of row");
        return;
    };
    let mut whole = Vec::new(alloc);
    match write_out(&mut whole, input) {
        Ok(()) => put_each(text, alloc, kind, whole.as_slice(), mark_of(kind)),
        Err(AllocError) => put(text, b"no memory"),
    }
    drop(whole);
}

// What stands behind each part of an input.
fn mark_of(kind: &str) -> &'static [u8]
    ensures { 0 < length result.now }
{
    if kind == "lines" { b"\n" } else { END_OF_CASE }
}

// Puts the input with what each `…` stands for behind the whole.
fn write_out(whole: &mut Vec<u8>, input: &[u8]) -> Result<(), AllocError> {
    let mut rest = input;
    while let Some((part, behind)) = parted(rest, MANY) {
        whole.extend_from_slice(part)?;
        write_many(whole, behind.first())?;
        rest = behind;
    }
    whole.extend_from_slice(rest)
}

// With the one that stands in the input they are as many as a line may have.
fn write_many(whole: &mut Vec<u8>, byte: Option<&u8>) -> Result<(), AllocError> {
    match byte {
        Some(byte) => whole.resize(whole.len().saturating_add(LINE_BYTES_MAX - 1), *byte),
        None => Ok(()),
    }
}

// What stands before the first such mark, and what stands behind it.
fn parted<'a>(input: &'a [u8], mark: &[u8]) -> Option<(&'a [u8], &'a [u8])>
    requires { 0 < length mark.now }
    ensures { IfSome result (λ parts. length parts.1.now < length input.now) }
{
    let at = memmem::find(input, mark)?;
    Some((&input[..at], &input[at + mark.len()..]))
}

// Puts what each part of an input comes to, behind which this mark stands each time. An input that ends otherwise is no row's.
fn put_each(text: &mut Vec<u8>, alloc: Global, kind: &str, input: &[u8], mark: &[u8])
    requires { 0 < length mark.now }
{
    let mut rest = input;
    while let Some((part, behind)) = parted(rest, mark) {
        put_part(text, alloc, kind, part);
        rest = behind;
    }
    if !rest.is_empty() {
        put(text, b"not ended\n");
    }
}

fn put_part(text: &mut Vec<u8>, alloc: Global, kind: &str, part: &[u8]) {
    if kind == "faults" {
        put_scenario(text, alloc, part);
        return;
    }
    match str::from_utf8(part) {
        Ok(case) => put_case(text, alloc, kind, case),
        Err(_) => put(text, b"no text\n"),
    }
}

fn put_case(text: &mut Vec<u8>, alloc: Global, kind: &str, case: &str) {
    match kind {
        "asked" => put_asked(text, alloc, case),
        "lines" => put_line(text, alloc, case),
        "blocks" => put_block(text, alloc, case),
        _ => put(text, b"no kind of row\n"),
    }
}
