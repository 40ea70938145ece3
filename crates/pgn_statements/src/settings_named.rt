ghost use Rattle.std.specs.Prelude.{◌≡◌};
ghost use Rattle.pgn_requests.specs.Phrases.{setting_named};
ghost use Rattle.pgn_statements.specs.Choices.{named_among};

use pgn_command::is_word;
use pgn_requests::{Setting, setting_name};

const SETTINGS: [Setting; 17] = [
    Setting::ApplicationName,
    Setting::ClientEncoding,
    Setting::DateStyle,
    Setting::DefaultTransactionReadOnly,
    Setting::InHotStandby,
    Setting::IntegerDatetimes,
    Setting::IntervalStyle,
    Setting::IsSuperuser,
    Setting::ServerEncoding,
    Setting::ServerVersion,
    Setting::SessionAuthorization,
    Setting::StandardConformingStrings,
    Setting::TimeZone,
    Setting::ClientMinMessages,
    Setting::ExtraFloatDigits,
    Setting::TransactionIsolation,
    Setting::TransactionReadOnly,
];

/// The setting of this name, without regard to ASCII case.
pub fn setting_named(name: &str) -> Option<Setting>
    ensures { result ≡ setting_named name.now }
{
    named_among(&SETTINGS, name)
}

// The first of some settings that has this name.
fn named_among(mut settings: &[Setting], name: &str) -> Option<Setting>
    ensures { result ≡ named_among settings.entry.now name.now }
{
    while let [setting, rest @ ..] = settings {
        if is_word(name, setting_name(*setting)) {
            return Some(*setting);
        }
        settings = rest;
    }
    None
}
