ghost use Rattle.std.specs.Prelude.{◌≡◌, ◌≤◌, ◌++◌, length, IfOk};
ghost use Rattle.pgn_requests.specs.Texts.{one_line};
ghost use Rattle.pgn_requests.specs.Phrases as told;
ghost use Rattle.pgn_statements.specs.Steps.{Gives};

use crate::lines::line;
use pgn_base::{Command, Which};
use pgn_command::cut;
use pgn_requests::{
    Cause, Complaint, Request, SHORT_BYTES_MAX, Setting, ShortText, Wording, setting_name,
};
use std::alloc::{AllocError, Global};

/// The most bytes of a complaint.
const WORDS_BYTES_MAX: usize = 200;

/// The line of a text that the session refuses at this byte, where a client is told why in these words.
pub fn refused(
    alloc: Global,
    text: &str,
    at: u32,
    cause: Cause,
    words: ShortText,
) -> Result<Request, AllocError>
    ensures { Gives result (told.refused (one_line text.now) at cause words) }
{
    let complaint = Complaint { cause, text: words };
    line(
        alloc,
        text,
        refused_by(cause, at),
        Wording::Refused(complaint),
    )
}

/// The same in words that are at hand.
pub fn refused_as(
    alloc: Global,
    text: &str,
    at: u32,
    cause: Cause,
    words: &str,
) -> Result<Request, AllocError>
    requires { length words.now ≤ SHORT_BYTES_MAX }
    ensures { Gives result (told.refused (one_line text.now) at cause words.now) }
{
    let words = ShortText::new(alloc, words)?;
    refused(alloc, text, at, cause, words)
}

// The command that the session refuses for this cause, where the text is at fault at this byte.
fn refused_by(cause: Cause, at: u32) -> Command
    ensures { result ≡ told.refused_by cause at }
{
    match cause {
        Cause::BadEncoding | Cause::BadMessage => Command::Bad { at },
        Cause::NoSetting | Cause::BadValue | Cause::Fixed | Cause::Unsupported => Command::Invalid {
            which: Which::ChannelEmpty,
        },
    }
}

/// No setting has this name.
pub fn no_setting(alloc: Global, name: &str) -> Result<ShortText, AllocError>
    ensures { IfOk result (λ words. words ≡ told.no_setting name.now) }
{
    let name = told_value(name);
    let head = "unrecognized configuration parameter \"";
    words_of(alloc, "", "", head, name, "\"")
}

/// A setting cannot have this value.
pub fn bad_value(alloc: Global, setting: Setting, value: &str) -> Result<ShortText, AllocError>
    ensures { IfOk result (λ words. words ≡ told.bad_value setting value.now) }
{
    let name = setting_name(setting);
    let value = told_value(value);
    let head = "invalid value for parameter \"";
    words_of(alloc, head, name, "\": \"", value, "\"")
}

/// A setting cannot be changed.
pub fn fixed(alloc: Global, setting: Setting) -> Result<ShortText, AllocError>
    ensures { IfOk result (λ words. words ≡ told.fixed setting) }
{
    let name = setting_name(setting);
    let tail = "\" cannot be changed";
    words_of(alloc, "", "", "parameter \"", name, tail)
}

/// The service cannot have this value of a setting.
pub fn unsupported(alloc: Global, setting: Setting, value: &str) -> Result<ShortText, AllocError>
    ensures { IfOk result (λ words. words ≡ told.unsupported setting value.now) }
{
    let name = setting_name(setting);
    let value = told_value(value);
    words_of(alloc, "", name, ": \"", value, "\" is not supported")
}

// These texts, one behind the other. Each may be empty.
fn words_of(
    alloc: Global,
    head: &str,
    name: &str,
    between: &str,
    value: &str,
    tail: &str,
) -> Result<ShortText, AllocError>
    requires { length (head.now ++ name.now ++ between.now ++ value.now ++ tail.now)
        ≤ SHORT_BYTES_MAX }
    ensures { IfOk result (λ words.
        words ≡ head.now ++ name.now ++ between.now ++ value.now ++ tail.now) }
{
    let mut words = String::with_capacity(alloc, WORDS_BYTES_MAX)?;
    words.push_str(head)?;
    words.push_str(name)?;
    words.push_str(between)?;
    words.push_str(value)?;
    words.push_str(tail)?;
    ShortText::new(alloc, words.as_str())
}

// A value as it is told.
fn told_value(value: &str) -> &str
    ensures value { result.now ≡ told.told_value value.now }
    ensures short { length result.now ≤ 63 }
{
    cut(value)
}
