ghost use Rattle.std.specs.Prelude.{◌≡◌, [], ◌∷◌, IfOk};
ghost use Rattle.pgn_language.specs.Lines.{parts_of, meta_says};
ghost use Rattle.pgn_scenario.specs.Saying.{told};

use crate::labels::{database_of, is_label, name_of};
use crate::parts::{Parts, parts_of};
use crate::said::{Deed, Said};
use std::alloc::{AllocError, Global};

/// What a text says that begins as a meta line.
pub fn meta_of(alloc: Global, text: &str) -> Result<Said, AllocError>
    ensures { IfOk result (λ said. told said ≡ meta_says (parts_of text.now)) }
{
    match parts_of(text) {
        Parts::One(word) => Ok(quit_line(word)),
        Parts::Two(word, flag) => flag_line(alloc, word, flag),
        Parts::Three(word, name, digits) => session_line(alloc, word, name, digits),
        Parts::Other => Ok(Said::NoMeta),
    }
}

// `\quit`
fn quit_line(word: &str) -> Said
    ensures { told result ≡ meta_says (word.now ∷ []) }
{
    if word == "\\quit" {
        Said::Does(Deed::Quits)
    } else {
        Said::NoMeta
    }
}

// `\signal FLAG` or `\await FLAG`
fn flag_line(alloc: Global, word: &str, flag: &str) -> Result<Said, AllocError>
    ensures { IfOk result (λ said. told said ≡ meta_says (word.now ∷ flag.now ∷ [])) }
{
    if !is_label(flag) {
        return Ok(Said::NoMeta);
    }
    if word == "\\signal" {
        let name = name_of(alloc, flag)?;
        return Ok(Said::Does(Deed::Signals(name)));
    }
    if word == "\\await" {
        let name = name_of(alloc, flag)?;
        return Ok(Said::Does(Deed::Awaits(name)));
    }
    Ok(Said::NoMeta)
}

// `\session NAME DB`
fn session_line(alloc: Global, word: &str, name: &str, digits: &str) -> Result<Said, AllocError>
    ensures { IfOk result (λ said. told said ≡ meta_says (word.now ∷ name.now ∷ digits.now ∷ [])) }
{
    if word != "\\session" || !is_label(name) {
        return Ok(Said::NoMeta);
    }
    let Some(db) = database_of(digits) else {
        return Ok(Said::NoMeta);
    };
    let name = name_of(alloc, name)?;
    Ok(Said::Opens(name, db))
}
