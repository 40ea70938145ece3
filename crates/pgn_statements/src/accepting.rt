ghost use Rattle.std.specs.Prelude.{◌≡◌, ◌≤◌, filter, length, map, option_map, IfOk, IfSome};
ghost use Rattle.std.specs.Str.{str_to_ascii_lowercase};
ghost use Rattle.pgn_requests.specs.declared.setting.Setting.TheVariants as setting;
ghost use Rattle.pgn_requests.specs.Values.{accepted, chosen, encoding, only_on, shown_byte};
ghost use Rattle.pgn_statements.specs.Choices.{is_kept};

use crate::choices::{
    date_style, float_digits, interval_style, is_same, isolation, message_level, says_off, says_on,
    switch,
};
use crate::encodings::is_encoding;
use pgn_command::{cut, is_blank};
use pgn_requests::{SHORT_BYTES_MAX, Setting, ShortText, Verdict};
use std::alloc::{AllocError, Global};

/// What comes of a value that a client gives a setting.
pub fn accepted(alloc: Global, setting: Setting, value: &str) -> Result<Verdict, AllocError>
    ensures { IfOk result (λ verdict. verdict ≡ accepted setting value.now) }
{
    match setting {
        Setting::ApplicationName => application_name(alloc, value),
        Setting::ClientEncoding => encoding(alloc, value),
        Setting::DateStyle => dates(alloc, value),
        Setting::DefaultTransactionReadOnly => chosen(alloc, switch(value)),
        Setting::InHotStandby => Ok(Verdict::Unchangeable),
        Setting::IntegerDatetimes => Ok(Verdict::Unchangeable),
        Setting::IntervalStyle => chosen(alloc, interval_style(value)),
        Setting::IsSuperuser => Ok(Verdict::Unchangeable),
        Setting::ServerEncoding => Ok(Verdict::Unchangeable),
        Setting::ServerVersion => Ok(Verdict::Unchangeable),
        Setting::SessionAuthorization => becomes(alloc, cut(value)),
        Setting::StandardConformingStrings => only_on(alloc, value),
        Setting::TimeZone => zone(alloc, value),
        Setting::ClientMinMessages => chosen(alloc, message_level(value)),
        Setting::ExtraFloatDigits => chosen(alloc, float_digits(value)),
        Setting::TransactionIsolation => chosen(alloc, isolation(value)),
        Setting::TransactionReadOnly => chosen(alloc, switch(value)),
    }
}

// The setting has this value then.
fn becomes(alloc: Global, value: &str) -> Result<Verdict, AllocError>
    requires { length value.now ≤ SHORT_BYTES_MAX }
    ensures { IfOk result (λ verdict. verdict ≡ Verdict.Becomes value.now) }
{
    let value = ShortText::new(alloc, value)?;
    Ok(Verdict::Becomes(value))
}

// One of some values, or none of them.
fn chosen(alloc: Global, choice: Option<&str>) -> Result<Verdict, AllocError>
    requires { IfSome choice (λ text. length text.now ≤ 16) }
    ensures { IfOk result (λ verdict. verdict ≡ chosen (option_map (λ text. text.now) choice.entry)) }
{
    match choice {
        Some(value) => becomes(alloc, value),
        None => Ok(Verdict::Invalid),
    }
}

// An application's name: what is no printable ASCII is a `?`.
fn application_name(alloc: Global, value: &str) -> Result<Verdict, AllocError>
    ensures { IfOk result (λ verdict. verdict ≡ accepted setting.ApplicationName value.now) }
{
    let bytes = shown_bytes(alloc, cut(value).as_bytes())?;
    let made = String::from_utf8(bytes).unwrap();
    becomes(alloc, made.as_str())
}

fn shown_bytes(alloc: Global, bytes: &[u8]) -> Result<Vec<u8>, AllocError>
    ensures { IfOk result (λ made. made.items ≡ map shown_byte bytes.now) }
{
    let mut made = Vec::with_capacity(alloc, bytes.len())?;
    for byte in bytes {
        made.push(shown_byte(*byte))?;
    }
    Ok(made)
}

fn shown_byte(byte: u8) -> u8
    ensures { result ≡ shown_byte byte }
{
    if byte >= 32 && byte <= 126 {
        byte
    } else {
        b'?'
    }
}

// An encoding by its letters and digits.
fn encoding(alloc: Global, value: &str) -> Result<Verdict, AllocError>
    ensures { IfOk result (λ verdict. verdict ≡ accepted setting.ClientEncoding value.now) }
{
    let letters = lowered(alloc, value.as_bytes(), true)?;
    encoding_of(alloc, letters.as_slice())
}

fn encoding_of(alloc: Global, letters: &[u8]) -> Result<Verdict, AllocError>
    ensures { IfOk result (λ verdict. verdict ≡ encoding letters.now) }
{
    if is_same(true, "utf8", letters) || is_same(true, "unicode", letters) {
        return becomes(alloc, "UTF8");
    }
    if is_same(true, "sqlascii", letters) {
        return becomes(alloc, "SQL_ASCII");
    }
    if is_encoding(letters) {
        return Ok(Verdict::Unsupported);
    }
    Ok(Verdict::Invalid)
}

// What is kept of a value, in lower case.
fn lowered(alloc: Global, bytes: &[u8], letters: bool) -> Result<Vec<u8>, AllocError>
    ensures { IfOk result (λ made.
        made.items ≡ str_to_ascii_lowercase (filter (is_kept letters) bytes.now)) }
{
    let mut made = Vec::with_capacity(alloc, bytes.len())?;
    for byte in bytes {
        if is_kept(letters, *byte) {
            made.push(byte.to_ascii_lowercase())?;
        }
    }
    Ok(made)
}

// A letter or a digit is kept where only these are, and else all but a blank.
fn is_kept(letters: bool, byte: u8) -> bool
    ensures { result ≡ is_kept letters byte }
{
    if letters {
        byte.is_ascii_alphanumeric()
    } else {
        !is_blank(byte)
    }
}

// A style of dates.
fn dates(alloc: Global, value: &str) -> Result<Verdict, AllocError>
    ensures { IfOk result (λ verdict. verdict ≡ accepted setting.DateStyle value.now) }
{
    let words = lowered(alloc, value.as_bytes(), false)?;
    chosen(alloc, date_style(words.as_slice()))
}

// Only on, since the service knows no other literals.
fn only_on(alloc: Global, value: &str) -> Result<Verdict, AllocError>
    ensures { IfOk result (λ verdict. verdict ≡ only_on value.now) }
{
    if says_on(value) {
        return becomes(alloc, "on");
    }
    if says_off(value) {
        return Ok(Verdict::Unsupported);
    }
    Ok(Verdict::Invalid)
}

// A time zone: any text that is short enough.
fn zone(alloc: Global, value: &str) -> Result<Verdict, AllocError>
    ensures { IfOk result (λ verdict. verdict ≡ accepted setting.TimeZone value.now) }
{
    if value.len() <= SHORT_BYTES_MAX {
        return becomes(alloc, value);
    }
    Ok(Verdict::Invalid)
}
