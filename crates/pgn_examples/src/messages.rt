ghost use Rattle.std.specs.Prelude.{◌≡◌, codes};
ghost use Rattle.pgn_messages.specs.Server.{columns, completed, cut_notice, described, error_of, fatal, fraction, status};
ghost use Rattle.pgn_messages.specs.Messages.{messages};
ghost use Rattle.pgn_examples.specs.Messages.{cut_bytes, discard_bytes, endless_bytes, fatal_bytes, first_bytes, first_items, first_section, second_bytes, second_items, second_section, third_bytes, third_items, third_section, fourth_bytes, fourth_items, fourth_section, no_setting_bytes, occupied_pages, void_bytes, zone_bytes};

/// Four conversations, byte by byte.
pub fn worked_rows()
    ensures first { messages first_section first_items ≡ first_bytes }
    ensures second { messages second_section second_items ≡ second_bytes }
    ensures third { messages third_section third_items ≡ third_bytes }
    ensures fourth { messages fourth_section fourth_items ≡ fourth_bytes }
{}

/// An error of the severity FATAL, byte by byte.
pub fn fatal_error()
    ensures { fatal (codes "08P01") (codes "bad message") ≡ fatal_bytes }
{}

/// Messages of a service, byte by byte, and how much of the queue is in use as a fraction.
pub fn service_rows()
    ensures column { described (codes "pg_notify") 2278 4 ≡ void_bytes }
    ensures ending { completed (codes "DISCARD ALL") ≡ discard_bytes }
    ensures setting { status (codes "TimeZone") (codes "UTC") ≡ zone_bytes }
    ensures no_setting { error_of (codes "42704") (codes "unrecognized configuration parameter \"colour\"") ≡ no_setting_bytes }
    ensures cut { cut_notice (codes "ab") (codes "a") ≡ cut_bytes }
    ensures none_of_256 { fraction (occupied_pages 0) ≡ codes "0" }
    ensures one_of_256 { fraction (occupied_pages 1) ≡ codes "0.00390625" }
    ensures half_of_256 { fraction (occupied_pages 128) ≡ codes "0.5" }
    ensures all_of_256 { fraction (occupied_pages 256) ≡ codes "1" }
{}

/// What these are not.
pub fn other_rows()
    // A column of void is no column of text.
    ensures column_of_text { described (codes "pg_notify") 2278 4 ≡ columns (codes "pg_notify") → ⊥ }
    // A command's end has a zero byte.
    ensures no_zero_byte { completed (codes "DISCARD ALL") ≡ endless_bytes → ⊥ }
    // A setting's name stands before its value.
    ensures value_first { status (codes "UTC") (codes "TimeZone") ≡ zone_bytes → ⊥ }
    // An error is not of the severity FATAL.
    ensures severity { error_of (codes "08P01") (codes "bad message") ≡ fatal_bytes → ⊥ }
    // The whole name stands first.
    ensures cut_first { cut_notice (codes "a") (codes "ab") ≡ cut_bytes → ⊥ }
    // No zero stands at the end of a fraction.
    ensures zeros_at_end { fraction (occupied_pages 128) ≡ codes "0.50000000" → ⊥ }
{}
