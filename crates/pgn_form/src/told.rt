ghost use Rattle.std.specs.Prelude.{◌≡◌, ◌^◌, ◌<◌, [], ◌++◌, length, codes, decimal, IfOk, IfSome, OnOk, bytes_eq};
ghost use Rattle.pgn_model.specs.Text.{section_line};
ghost use Rattle.pgn_form.specs.Places.{Fits, told};
ghost use Rattle.pgn_form.specs.declared.place.Place.TheVariants as at;
ghost use Rattle.pgn_form.specs.declared.place.Within.TheVariants as within;

use crate::{Place, Within};
use itoa::Buffer;
use pgn_base::PID_BASE;
use pgn_language::{Scenario, ScriptLine, Section};
use std::alloc::{AllocError, Global};

/// Where a line leads to that is known beforehand: the head of a section, or the next line of its script.
pub fn told(
    alloc: Global,
    scenario: &Scenario,
    place: Place,
    line: &[u8],
) -> Result<Option<Place>, AllocError>
    requires few { length scenario.now.sections < 2 ^ 32 }
    ensures value { IfOk result (λ next. next ≡ told scenario.now place line.now) }
    ensures fits { IfOk result (λ next. IfSome next Fits) }
{
    match place {
        Place::Sections { section } => opened(alloc, scenario, section, line),
        Place::Inside {
            section,
            begun,
            within: Within::Free,
        } => Ok(went_on(scenario, section, begun, line)),
        Place::Inside {
            section,
            begun,
            within: Within::Receiving,
        } => Ok(went_on(scenario, section, begun, line)),
        _ => Ok(None),
    }
}

// The head of the section in this place leads into it.
fn opened(
    alloc: Global,
    scenario: &Scenario,
    section: usize,
    line: &[u8],
) -> Result<Option<Place>, AllocError>
    requires few { length scenario.now.sections < 2 ^ 32 }
    ensures value { IfOk result (λ next. next ≡ told scenario.now (at.Sections section) line.now) }
    ensures fits { IfOk result (λ next. IfSome next Fits) }
{
    let Some(part) = scenario.sections.as_slice().get(section) else {
        return Ok(None);
    };
    if !is_head(alloc, part, line)? {
        return Ok(None);
    }
    Ok(Some(Place::Inside {
        section,
        begun: 0,
        within: Within::Free,
    }))
}

// The next line of its script leads on.
fn went_on(scenario: &Scenario, section: usize, begun: usize, line: &[u8]) -> Option<Place>
    requires few { length scenario.now.sections < 2 ^ 32 }
    ensures value { result ≡ told scenario.now (at.Inside section begun within.Free) line.now }
    ensures fits { IfSome result Fits }
{
    let Some(part) = scenario.sections.as_slice().get(section) else {
        return None;
    };
    let Some(script) = part.lines.as_slice().get(begun) else {
        return None;
    };
    if !is_script(script, line) {
        return None;
    }
    Some(Place::Inside {
        section,
        begun: begun + 1,
        within: Within::Free,
    })
}

// A line is the head of a section.
fn is_head(alloc: Global, section: &Section, line: &[u8]) -> Result<bool, AllocError>
    ensures { IfOk result (λ same. same ≡ bytes_eq (section_line section.now) line.now) }
{
    let mut head = Vec::new(alloc);
    match put_head(&mut head, section) {
        Ok(()) => Ok(head.as_slice() == line),
        Err(AllocError) => Err(AllocError),
    }
}

// The head of a section, into an empty list: its number, its name, its database and its process number.
fn put_head(bytes: &mut Vec<u8>, section: &Section) -> Result<(), AllocError>
    requires empty { bytes.old.items ≡ [] }
    ensures { OnOk result (bytes.new.items ≡ section_line section.now) }
{
    put_number(bytes, b"session ", section.no.get())?;
    bytes.extend_from_slice(b" ")?;
    bytes.extend_from_slice(section.name.as_bytes())?;
    put_number(bytes, b" db ", section.db.get())?;
    put_number(bytes, b" pid ", PID_BASE + section.no.get())
}

// A word and a number behind it.
fn put_number(bytes: &mut Vec<u8>, word: &[u8], number: u32) -> Result<(), AllocError>
    ensures { OnOk result (bytes.new.items ≡ bytes.old.items ++ word.now ++ decimal number) }
{
    let mut buffer = Buffer::new();
    bytes.extend_from_slice(word)?;
    bytes.extend_from_slice(buffer.format(number).as_bytes())
}

// A line shows a line of a script.
fn is_script(script: &ScriptLine, line: &[u8]) -> bool
    ensures { result ≡ bytes_eq (codes "> " ++ script.now.text) line.now }
{
    match line {
        [b'>', b' ', text @ ..] => script.text.as_bytes() == text,
        _ => false,
    }
}
