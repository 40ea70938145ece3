ghost use Rattle.std.specs.Prelude.{◌≡◌, ◌≤◌, length, map, option_map, IfSome, true};
ghost use Rattle.std.specs.List.{list_any};
ghost use Rattle.pgn_requests.specs.Values.{date_style, float_digits, interval_style, isolation, message_level, says_off, says_on, switch};
ghost use Rattle.pgn_statements.specs.Choices.{are_short, beside, is_same};

// Each has a word, and the value that is meant by it.
const DATE_STYLES: [(&str, &str); 19] = [
    ("iso", "ISO, MDY"),
    ("mdy", "ISO, MDY"),
    ("iso,mdy", "ISO, MDY"),
    ("dmy", "ISO, DMY"),
    ("iso,dmy", "ISO, DMY"),
    ("ymd", "ISO, YMD"),
    ("iso,ymd", "ISO, YMD"),
    ("sql", "SQL, MDY"),
    ("sql,mdy", "SQL, MDY"),
    ("sql,dmy", "SQL, DMY"),
    ("sql,ymd", "SQL, YMD"),
    ("postgres", "Postgres, MDY"),
    ("postgres,mdy", "Postgres, MDY"),
    ("postgres,dmy", "Postgres, DMY"),
    ("postgres,ymd", "Postgres, YMD"),
    ("german", "German, DMY"),
    ("german,dmy", "German, DMY"),
    ("german,mdy", "German, MDY"),
    ("german,ymd", "German, YMD"),
];

const ON: [&str; 9] = ["on", "true", "tru", "tr", "t", "yes", "ye", "y", "1"];

const OFF: [&str; 10] = [
    "off", "of", "false", "fals", "fal", "fa", "f", "no", "n", "0",
];

const INTERVAL_STYLES: [(&str, &str); 4] = [
    ("postgres", "postgres"),
    ("postgres_verbose", "postgres_verbose"),
    ("sql_standard", "sql_standard"),
    ("iso_8601", "iso_8601"),
];

const MESSAGE_LEVELS: [(&str, &str); 10] = [
    ("debug5", "debug5"),
    ("debug4", "debug4"),
    ("debug3", "debug3"),
    ("debug2", "debug2"),
    ("debug", "debug2"),
    ("debug1", "debug1"),
    ("log", "log"),
    ("notice", "notice"),
    ("warning", "warning"),
    ("error", "error"),
];

const ISOLATIONS: [(&str, &str); 4] = [
    ("serializable", "serializable"),
    ("repeatable read", "repeatable read"),
    ("read committed", "read committed"),
    ("read uncommitted", "read uncommitted"),
];

const FLOAT_DIGITS: [(&str, &str); 19] = [
    ("3", "3"),
    ("2", "2"),
    ("1", "1"),
    ("0", "0"),
    ("-1", "-1"),
    ("-2", "-2"),
    ("-3", "-3"),
    ("-4", "-4"),
    ("-5", "-5"),
    ("-6", "-6"),
    ("-7", "-7"),
    ("-8", "-8"),
    ("-9", "-9"),
    ("-10", "-10"),
    ("-11", "-11"),
    ("-12", "-12"),
    ("-13", "-13"),
    ("-14", "-14"),
    ("-15", "-15"),
];

/// A style of dates by its words.
pub fn date_style(words: &[u8]) -> Option<&'static str>
    ensures value { option_map (λ text. text.now) result ≡ date_style words.now }
    ensures short { IfSome result (λ text. length text.now ≤ 16) }
{
    beside(true, &DATE_STYLES, words)
}

/// On, or a beginning of true or of yes, or 1.
pub fn says_on(value: &str) -> bool
    ensures { result ≡ says_on value.now }
{
    is_among(false, &ON, value.as_bytes())
}

/// Off, or a beginning of it that is not one of on, or a beginning of false or of no, or 0.
pub fn says_off(value: &str) -> bool
    ensures { result ≡ says_off value.now }
{
    is_among(false, &OFF, value.as_bytes())
}

/// On or off.
pub fn switch(value: &str) -> Option<&'static str>
    ensures value { option_map (λ text. text.now) result ≡ switch value.now }
    ensures short { IfSome result (λ text. length text.now ≤ 16) }
{
    if says_on(value) {
        return Some("on");
    }
    if says_off(value) {
        return Some("off");
    }
    None
}

/// How intervals are written.
pub fn interval_style(value: &str) -> Option<&'static str>
    ensures value { option_map (λ text. text.now) result ≡ interval_style value.now }
    ensures short { IfSome result (λ text. length text.now ≤ 16) }
{
    beside(false, &INTERVAL_STYLES, value.as_bytes())
}

/// Which messages a client is told.
pub fn message_level(value: &str) -> Option<&'static str>
    ensures value { option_map (λ text. text.now) result ≡ message_level value.now }
    ensures short { IfSome result (λ text. length text.now ≤ 16) }
{
    beside(false, &MESSAGE_LEVELS, value.as_bytes())
}

/// How transactions are kept apart.
pub fn isolation(value: &str) -> Option<&'static str>
    ensures value { option_map (λ text. text.now) result ≡ isolation value.now }
    ensures short { IfSome result (λ text. length text.now ≤ 16) }
{
    beside(false, &ISOLATIONS, value.as_bytes())
}

/// How many digits of a float are shown beyond what is usual: -15 to 3.
pub fn float_digits(value: &str) -> Option<&'static str>
    ensures value { option_map (λ text. text.now) result ≡ float_digits value.now }
    ensures short { IfSome result (λ text. length text.now ≤ 16) }
{
    beside(true, &FLOAT_DIGITS, value.as_bytes())
}

// The value beside the first of some words that the bytes are, with regard to ASCII case or without.
fn beside(
    cased: bool,
    mut rows: &[(&'static str, &'static str)],
    bytes: &[u8],
) -> Option<&'static str>
    requires { are_short (map (λ row. (row.0.now, row.1.now)) rows.now) ≡ true }
    ensures value { option_map (λ text. text.now) result
        ≡ beside cased (map (λ row. (row.0.now, row.1.now)) rows.entry.now) bytes.now }
    ensures short { IfSome result (λ text. length text.now ≤ 16) }
{
    while let [row, rest @ ..] = rows {
        if is_same(cased, row.0, bytes) {
            return Some(row.1);
        }
        rows = rest;
    }
    None
}

/// The bytes are one of these words, with regard to ASCII case or without.
pub fn is_among(cased: bool, words: &[&str], bytes: &[u8]) -> bool
    ensures { result ≡ list_any (λ word. is_same cased word.now bytes.now) words.now }
{
    for word in words {
        if is_same(cased, word, bytes) {
            return true;
        }
    }
    false
}

/// The bytes are this word, with regard to ASCII case or without.
pub fn is_same(cased: bool, word: &str, bytes: &[u8]) -> bool
    ensures { result ≡ is_same cased word.now bytes.now }
{
    if cased {
        word.as_bytes() == bytes
    } else {
        word.as_bytes().eq_ignore_ascii_case(bytes)
    }
}
