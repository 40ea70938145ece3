ghost use Rattle.std.specs.Prelude.{◌≡◌, IfOk, Some, string_bytes};
ghost use Rattle.pgn_requests.specs.declared.complaint.Cause.TheVariants as cause;
ghost use Rattle.pgn_requests.specs.declared.settled.Settled.TheVariants as settled;
ghost use Rattle.pgn_requests.specs.Texts.{one_line};
ghost use Rattle.pgn_requests.specs.Phrases as told;
ghost use Rattle.pgn_statements.specs.Lexemes.{meant, all_meant};
ghost use Rattle.pgn_statements.specs.Steps.{Gives, here_asks, of_setting_asks, user_asks};

use crate::accepting::accepted;
use crate::complaining::{bad_value, fixed, no_setting, refused, refused_as, unsupported};
use crate::lines::unread;
use crate::settings_named::setting_named;
use crate::values::put_values;
use crate::words::{after_one, after_two, are_three, are_two, is_key, is_name, is_one};
use pgn_command::{Lexeme, unquoted};
use pgn_requests::{Cause, Request, Setting, Settled, Verdict};
use std::alloc::{AllocError, Global};

// A setting that gets a value, and whether this comes of the start-up.
#[derive(Clone, Copy)]
struct Target {
    setting: Setting,
    starts: bool,
}

/// After SET.
pub fn set(
    alloc: Global,
    text: &str,
    at: u32,
    lexemes: &[Lexeme<'_>],
) -> Result<Request, AllocError>
    ensures { Gives result (told.setting_asks text.now at (all_meant lexemes.now)) }
{
    match after_one(lexemes, "local") {
        Some(_) => refused_as(
            alloc,
            text,
            at,
            Cause::Unsupported,
            "SET LOCAL is not supported",
        ),
        None => set_here(alloc, text, at, lexemes),
    }
}

// After SET, where it is not LOCAL.
fn set_here(
    alloc: Global,
    text: &str,
    at: u32,
    lexemes: &[Lexeme<'_>],
) -> Result<Request, AllocError>
    ensures { Gives result (here_asks text.now at (all_meant lexemes.now)) }
{
    if let Some(rest) = after_one(lexemes, "names") {
        return valued(
            alloc,
            text,
            at,
            rest,
            Target {
                setting: Setting::ClientEncoding,
                starts: false,
            },
        );
    }
    match after_one(lexemes, "startup") {
        Some(rest) => assigned(alloc, text, at, true, rest),
        None => set_user(alloc, text, at, lexemes),
    }
}

// After SET, where it is none of these.
fn set_user(
    alloc: Global,
    text: &str,
    at: u32,
    lexemes: &[Lexeme<'_>],
) -> Result<Request, AllocError>
    ensures { Gives result (user_asks text.now at (all_meant lexemes.now)) }
{
    if let Some(rest) = after_two(lexemes, "session", "authorization") {
        return valued(
            alloc,
            text,
            at,
            rest,
            Target {
                setting: Setting::SessionAuthorization,
                starts: false,
            },
        );
    }
    match after_one(lexemes, "session") {
        Some(rest) => set_for_session(alloc, text, at, rest),
        None => set_for_session(alloc, text, at, lexemes),
    }
}

// After SET, and after SET SESSION.
fn set_for_session(
    alloc: Global,
    text: &str,
    at: u32,
    lexemes: &[Lexeme<'_>],
) -> Result<Request, AllocError>
    ensures { Gives result (told.session_asks text.now at (all_meant lexemes.now)) }
{
    match after_two(lexemes, "time", "zone") {
        Some(rest) => valued(
            alloc,
            text,
            at,
            rest,
            Target {
                setting: Setting::TimeZone,
                starts: false,
            },
        ),
        None => assigned(alloc, text, at, false, lexemes),
    }
}

// A name, TO and a value.
fn assigned(
    alloc: Global,
    text: &str,
    at: u32,
    starts: bool,
    lexemes: &[Lexeme<'_>],
) -> Result<Request, AllocError>
    ensures { Gives result (told.assigned_asks text.now at starts (all_meant lexemes.now)) }
{
    match lexemes {
        [name, to, value @ ..] if is_name(name) && is_key(to, "to") => {
            let name = ident_text(alloc, name)?;
            match setting_named(name.as_str()) {
                Some(setting) => valued(alloc, text, at, value, Target { setting, starts }),
                None => unknown(alloc, text, at, name.as_str()),
            }
        }
        _ => unread(alloc, text, at),
    }
}

// A setting gets the value that these tokens are, or its own where they are DEFAULT.
fn valued(
    alloc: Global,
    text: &str,
    at: u32,
    lexemes: &[Lexeme<'_>],
    target: Target,
) -> Result<Request, AllocError>
    ensures { Gives result (told.valued_asks text.now at target.starts (all_meant lexemes.now) target.setting) }
{
    let setting = target.setting;
    if is_one(lexemes, "default") {
        return set_back(alloc, text, at, setting, Settled::SetsBack { setting });
    }
    let mut value = String::new(alloc);
    if put_values(alloc, &mut value, lexemes)? {
        sets(alloc, text, at, value.as_str(), target)
    } else {
        unread(alloc, text, at)
    }
}

// A setting gets a value, if it can have it.
fn sets(
    alloc: Global,
    text: &str,
    at: u32,
    value: &str,
    target: Target,
) -> Result<Request, AllocError>
    ensures { Gives result (told.given_asks text.now at target.starts target.setting (Some value.now)) }
{
    let Target { setting, starts } = target;
    match accepted(alloc, setting, value)? {
        Verdict::Becomes(value) => Ok(Request::Settles(Settled::Sets {
            setting,
            value,
            starts,
        })),
        Verdict::Invalid => {
            let words = bad_value(alloc, setting, value)?;
            refused(alloc, text, at, Cause::BadValue, words)
        }
        Verdict::Unchangeable => unchangeable(alloc, text, at, setting),
        Verdict::Unsupported => {
            let words = unsupported(alloc, setting, value)?;
            refused(alloc, text, at, Cause::Unsupported, words)
        }
    }
}

// A setting gets the value that it had at the start, if it can be changed.
fn set_back(
    alloc: Global,
    text: &str,
    at: u32,
    setting: Setting,
    back: Settled,
) -> Result<Request, AllocError>
    ensures { Gives result (told.back_asks text.now at back setting) }
{
    if is_fixed(setting) {
        return unchangeable(alloc, text, at, setting);
    }
    Ok(Request::Settles(back))
}

// Nobody can change the setting.
fn is_fixed(setting: Setting) -> bool
    ensures { result ≡ told.is_fixed setting }
{
    matches!(
        setting,
        Setting::InHotStandby
            | Setting::IntegerDatetimes
            | Setting::IsSuperuser
            | Setting::ServerEncoding
            | Setting::ServerVersion
    )
}

// The refusal of its change.
fn unchangeable(alloc: Global, text: &str, at: u32, setting: Setting) -> Result<Request, AllocError>
    ensures { Gives result (told.refused (one_line text.now) at cause.Fixed (told.fixed setting)) }
{
    let words = fixed(alloc, setting)?;
    refused(alloc, text, at, Cause::Fixed, words)
}

/// After RESET.
pub fn reset(
    alloc: Global,
    text: &str,
    at: u32,
    lexemes: &[Lexeme<'_>],
) -> Result<Request, AllocError>
    ensures { Gives result (told.reset_asks text.now at (all_meant lexemes.now)) }
{
    if is_one(lexemes, "all") {
        return Ok(Request::Settles(Settled::ResetsAll));
    }
    of_setting(alloc, text, at, false, lexemes)
}

/// After SHOW.
pub fn show(
    alloc: Global,
    text: &str,
    at: u32,
    lexemes: &[Lexeme<'_>],
) -> Result<Request, AllocError>
    ensures { Gives result (told.show_asks text.now at (all_meant lexemes.now)) }
{
    if are_three(lexemes, "transaction", "isolation", "level") {
        return Ok(shown(Setting::TransactionIsolation));
    }
    of_setting(alloc, text, at, true, lexemes)
}

// A setting that is shown or reset, by one or two words, and nothing else.
fn of_setting(
    alloc: Global,
    text: &str,
    at: u32,
    shows: bool,
    lexemes: &[Lexeme<'_>],
) -> Result<Request, AllocError>
    ensures { Gives result (of_setting_asks text.now at shows (all_meant lexemes.now)) }
{
    if are_two(lexemes, "session", "authorization") {
        return settles(alloc, text, at, shows, Setting::SessionAuthorization);
    }
    if are_two(lexemes, "time", "zone") {
        return settles(alloc, text, at, shows, Setting::TimeZone);
    }
    named(alloc, text, at, shows, lexemes)
}

// A name of a setting that is shown or reset, and nothing else.
fn named(
    alloc: Global,
    text: &str,
    at: u32,
    shows: bool,
    lexemes: &[Lexeme<'_>],
) -> Result<Request, AllocError>
    ensures { Gives result (told.named_asks text.now at shows (all_meant lexemes.now)) }
{
    match lexemes {
        [name] if is_name(name) => {
            let name = ident_text(alloc, name)?;
            match setting_named(name.as_str()) {
                Some(setting) => settles(alloc, text, at, shows, setting),
                None => unknown(alloc, text, at, name.as_str()),
            }
        }
        _ => unread(alloc, text, at),
    }
}

// A setting is shown, or reset.
fn settles(
    alloc: Global,
    text: &str,
    at: u32,
    shows: bool,
    setting: Setting,
) -> Result<Request, AllocError>
    ensures { Gives result (told.named_settled text.now at shows setting) }
{
    if shows {
        Ok(shown(setting))
    } else {
        set_back(alloc, text, at, setting, Settled::Resets { setting })
    }
}

// A setting is shown.
fn shown(setting: Setting) -> Request
    ensures { result ≡ Request.Settles (settled.Shows setting) }
{
    Request::Settles(Settled::Shows { setting })
}

// No setting has this name.
fn unknown(alloc: Global, text: &str, at: u32, name: &str) -> Result<Request, AllocError>
    ensures { Gives result (told.refused (one_line text.now) at cause.NoSetting (told.no_setting name.now)) }
{
    let words = no_setting(alloc, name)?;
    refused(alloc, text, at, Cause::NoSetting, words)
}

// The text of a word or of a quoted identifier.
fn ident_text(alloc: Global, lexeme: &Lexeme<'_>) -> Result<String, AllocError>
    ensures { IfOk result (λ name. string_bytes name ≡ told.ident_text (meant lexeme.now)) }
{
    match lexeme {
        Lexeme::Word(text) => String::from_str(alloc, text),
        Lexeme::Quoted(inside) => unquoted(alloc, *inside),
        _ => Ok(String::new(alloc)),
    }
}
