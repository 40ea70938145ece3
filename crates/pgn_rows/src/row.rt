use crate::parts::put_parts;
use crate::printer::put;
use std::alloc::Global;
use std::fs;
use std::fs::Files;

/// Puts the name of the row, and where its input comes to another text than its output, both texts.
pub fn put_row<R: Files + AllocGlobal>(rt: &R, report: &mut Vec<u8>, name: &str) {
    let input = read_file(rt, name, "input");
    let output = read_file(rt, name, "output");
    put(report, name.as_bytes());
    match (&input, &output) {
        (Some(input), Some(output)) => {
            put_differing(
                report,
                rt.alloc(),
                name,
                input.as_slice(),
                output.as_slice(),
            )
        }
        _ => put(report, b" has no input or no output"),
    }
    put(report, b"\n");
    drop(input);
    drop(output);
}

// A file of a row, where it is there and memory suffices.
fn read_file<R: Files + AllocGlobal>(rt: &R, name: &str, ending: &str) -> Option<Vec<u8>> {
    let path = format!(in rt.alloc(); "{name}.{ending}").ok()?;
    let read = fs::read(rt, path.as_str());
    drop(path);
    read.ok()
}

fn put_differing(report: &mut Vec<u8>, alloc: Global, name: &str, input: &[u8], output: &[u8]) {
    let mut found = Vec::new(alloc);
    put_parts(&mut found, alloc, name, input);
    if found.as_slice() != output {
        put(report, b" differs\n--- wanted:\n");
        put(report, output);
        put(report, b"--- found:\n");
        put(report, found.as_slice());
    }
    drop(found);
}
