ghost use Rattle.std.specs.Prelude.{◌≡◌, ◌≤◌, length};
ghost use Rattle.pgn_requests.specs.Settings.{number_of, setting_name, default_of};

/// A parameter of a client. Nothing that the service does depends on one.
#[derive(Clone, Copy)]
pub enum Setting {
    ApplicationName,
    ClientEncoding,
    DateStyle,
    DefaultTransactionReadOnly,
    InHotStandby,
    IntegerDatetimes,
    IntervalStyle,
    IsSuperuser,
    ServerEncoding,
    ServerVersion,
    SessionAuthorization,
    StandardConformingStrings,
    TimeZone,
    ClientMinMessages,
    ExtraFloatDigits,
    TransactionIsolation,
    TransactionReadOnly,
}

/// The number by which settings are told apart.
pub fn number_of(setting: Setting) -> u8
    ensures { result ≡ number_of setting }
{
    match setting {
        Setting::ApplicationName => 0,
        Setting::ClientEncoding => 1,
        Setting::DateStyle => 2,
        Setting::DefaultTransactionReadOnly => 3,
        Setting::InHotStandby => 4,
        Setting::IntegerDatetimes => 5,
        Setting::IntervalStyle => 6,
        Setting::IsSuperuser => 7,
        Setting::ServerEncoding => 8,
        Setting::ServerVersion => 9,
        Setting::SessionAuthorization => 10,
        Setting::StandardConformingStrings => 11,
        Setting::TimeZone => 12,
        Setting::ClientMinMessages => 13,
        Setting::ExtraFloatDigits => 14,
        Setting::TransactionIsolation => 15,
        Setting::TransactionReadOnly => 16,
    }
}

/// A setting's name, as a server writes it.
pub fn setting_name(setting: Setting) -> &'static str
    ensures name { result.now ≡ setting_name setting }
    ensures short { length result.now ≤ 29 }
{
    match setting {
        Setting::ApplicationName => "application_name",
        Setting::ClientEncoding => "client_encoding",
        Setting::DateStyle => "DateStyle",
        Setting::DefaultTransactionReadOnly => "default_transaction_read_only",
        Setting::InHotStandby => "in_hot_standby",
        Setting::IntegerDatetimes => "integer_datetimes",
        Setting::IntervalStyle => "IntervalStyle",
        Setting::IsSuperuser => "is_superuser",
        Setting::ServerEncoding => "server_encoding",
        Setting::ServerVersion => "server_version",
        Setting::SessionAuthorization => "session_authorization",
        Setting::StandardConformingStrings => "standard_conforming_strings",
        Setting::TimeZone => "TimeZone",
        Setting::ClientMinMessages => "client_min_messages",
        Setting::ExtraFloatDigits => "extra_float_digits",
        Setting::TransactionIsolation => "transaction_isolation",
        Setting::TransactionReadOnly => "transaction_read_only",
    }
}

/// A setting's value where none was set.
pub fn default_of(setting: Setting) -> &'static str
    ensures value { result.now ≡ default_of setting }
    ensures short { length result.now ≤ 15 }
{
    match setting {
        Setting::ApplicationName => "",
        Setting::ClientEncoding | Setting::ServerEncoding => "UTF8",
        Setting::DateStyle => "ISO, MDY",
        Setting::DefaultTransactionReadOnly
        | Setting::InHotStandby
        | Setting::IsSuperuser
        | Setting::TransactionReadOnly => "off",
        Setting::IntegerDatetimes | Setting::StandardConformingStrings => "on",
        Setting::IntervalStyle | Setting::SessionAuthorization => "postgres",
        Setting::ServerVersion => "15.0 (pgnotify)",
        Setting::TimeZone => "UTC",
        Setting::ClientMinMessages => "notice",
        Setting::ExtraFloatDigits => "1",
        Setting::TransactionIsolation => "read committed",
    }
}
