ghost use Rattle.std.specs.Prelude.{◌≡◌, true, [], ◌∷◌, ◌++◌, codes};
ghost use Rattle.pgn_base.specs.declared.answers.Which.TheVariants.{ChannelEmpty};
ghost use Rattle.pgn_base.specs.declared.command.Command.TheVariants as command;
ghost use Rattle.pgn_requests.specs.declared.complaint.Cause.TheVariants as cause;
ghost use Rattle.pgn_requests.specs.declared.complaint.Wording.TheVariants.{Called};
ghost use Rattle.pgn_requests.specs.declared.request.Request.TheVariants.{Line, Discards};
ghost use Rattle.pgn_requests.specs.declared.setting.Setting.TheVariants as setting;
ghost use Rattle.pgn_requests.specs.declared.settled.Settled.TheVariants as settled;
ghost use Rattle.pgn_requests.specs.declared.verdict.Verdict.TheVariants.{Becomes, Invalid, Unchangeable, Unsupported};
ghost use Rattle.pgn_requests.specs.Texts.{bare, one_line};
ghost use Rattle.pgn_requests.specs.Values.{accepted};
ghost use Rattle.pgn_examples.specs.Requests.{lines, AsksFor, AsksSettled, AsksValue, AsksCommand, AsksNote, AsksRefused, AsksNothing};

/// What is read of texts.
pub fn bare_texts()
    ensures blanks_and_ends { bare (codes "LISTEN c ; ;; ") ≡ codes "LISTEN c" }
    ensures comment { bare (codes "LISTEN/* a */c") ≡ codes "LISTEN c" }
    ensures comment_in_a_comment { bare (codes "LISTEN /* a /* b */ c */ d") ≡ codes "LISTEN   d" }
    ensures slash_star_slash { bare (codes "LISTEN /*/ a */ d") ≡ codes "LISTEN   d" }
    ensures line_comment { bare (lines (codes "LISTEN -- a /* ' b") (codes "c")) ≡ codes "LISTEN  c" }
    ensures ended_by_a_return { bare (codes "-- a" ++ 13 ∷ codes "LISTEN c") ≡ codes "LISTEN c" }
    ensures line_feed { bare (lines (codes "LISTEN") (codes "c")) ≡ codes "LISTEN c" }
    // Between quotes nothing is taken out.
    ensures quoted { bare (codes "NOTIFY c, '/* ''--'") ≡ codes "NOTIFY c, '/* ''--'" }
    ensures quoted_line_feed { bare (lines (codes "NOTIFY c, 'a") (codes "b'")) ≡ lines (codes "NOTIFY c, 'a") (codes "b'") }
    ensures one_line { one_line (lines (codes "NOTIFY c, 'a") (codes "b'")) ≡ codes "NOTIFY c, 'a b'" }
    // A comment that does not end leaves what is no token.
    ensures unended { bare (codes "LISTEN c /* d") ≡ codes "LISTEN c /" }
    ensures single_signs { bare (codes "a - b / c -") ≡ codes "a - b / c -" }
    // Commands before it are empty.
    ensures empty_before { bare (codes "; ;LISTEN c") ≡ codes "LISTEN c" }
    ensures two_commands { bare (codes "LISTEN c;LISTEN d") ≡ codes "LISTEN c;LISTEN d" }
{}

/// Texts that are settled without the session, and others near them that are syntax errors.
pub fn constants()
    ensures one { AsksSettled (codes "select 1") settled.One }
    ensures two { AsksNothing (codes "SELECT 2") }
    ensures version { AsksSettled (codes "SELECT version()") settled.Version }
    ensures no_call { AsksNothing (codes "SELECT version") }
    ensures process { AsksSettled (codes "SELECT pg_backend_pid()") settled.Process }
    ensures channels { AsksCommand (codes "SELECT * FROM pg_listening_channels()") command.ListeningChannels }
    ensures other_function { AsksNothing (codes "SELECT * FROM pg_notify()") }
    ensures deallocate { AsksSettled (codes "DEALLOCATE ALL") settled.Deallocates }
    ensures deallocate_prepare { AsksSettled (codes "DEALLOCATE PREPARE ALL") settled.Deallocates }
    ensures deallocate_one { AsksNothing (codes "DEALLOCATE a") }
    ensures close { AsksSettled (codes "CLOSE ALL") settled.Closes }
    ensures close_one { AsksNothing (codes "CLOSE a") }
    ensures discard { AsksFor (codes "DISCARD ALL") Discards }
    ensures discard_plans { AsksNothing (codes "DISCARD PLANS") }
{}

/// Calls with brackets around arguments, and others near them.
pub fn bracketed_calls()
    ensures both { AsksNote (codes "SELECT pg_notify(('c'),('x'))") (codes "c") (codes "x") }
    ensures one { AsksNote (codes "select pg_notify('c', ('it''s'))") (codes "c") (codes "it's") }
    ensures null { AsksNote (codes "SELECT pg_notify(('c'),(NULL))") (codes "c") [] }
    ensures past_a_limit { AsksFor (codes "SELECT pg_notify((''),('x'))") (Line (codes "SELECT pg_notify((''),('x'))") (command.Invalid ChannelEmpty) Called) }
    ensures two_in_one { AsksNothing (codes "SELECT pg_notify(('c','x'))") }
    ensures open { AsksNothing (codes "SELECT pg_notify(('c','x')") }
    ensures one_too_many { AsksNothing (codes "SELECT pg_notify(('c'),('x')))") }
    ensures nothing_in_it { AsksNothing (codes "SELECT pg_notify(('c'),())") }
    ensures no_call { AsksNothing (codes "NOTIFY c, ('x')") }
{}

/// Transactions with modes.
pub fn transaction_modes()
    ensures level { AsksCommand (codes "BEGIN ISOLATION LEVEL REPEATABLE READ") command.Begin }
    ensures several { AsksCommand (codes "BEGIN WORK ISOLATION LEVEL SERIALIZABLE, READ ONLY DEFERRABLE") command.Begin }
    ensures start { AsksCommand (codes "START TRANSACTION READ WRITE") command.Start }
    ensures not_deferrable { AsksCommand (codes "START TRANSACTION NOT DEFERRABLE, READ ONLY") command.Start }
    ensures no_mode { AsksNothing (codes "BEGIN a") }
    ensures a_comma_behind { AsksNothing (codes "BEGIN READ ONLY,") }
    ensures half { AsksNothing (codes "BEGIN ISOLATION LEVEL READ") }
    ensures no_transaction { AsksNothing (codes "START READ ONLY") }
{}

/// Settings that are set, shown and reset.
#[tactic(auto, unfolding(pgn_language::specs::Grammar::cut))]
pub fn assignments()
    ensures word { AsksValue (codes "SET client_encoding TO UTF8") setting.ClientEncoding (codes "UTF8") }
    ensures equals { AsksValue (codes "SET extra_float_digits = 3") setting.ExtraFloatDigits (codes "3") }
    ensures literal { AsksValue (codes "SET SESSION application_name TO 'a''b'") setting.ApplicationName (codes "a'b") }
    ensures two_words { AsksValue (codes "SET DateStyle TO ISO, DMY") setting.DateStyle (codes "ISO, DMY") }
    ensures time_zone { AsksValue (codes "SET TIME ZONE 'Europe/Rome'") setting.TimeZone (codes "Europe/Rome") }
    ensures names { AsksValue (codes "SET NAMES 'utf-8'") setting.ClientEncoding (codes "UTF8") }
    ensures authorization { AsksValue (codes "SET SESSION AUTHORIZATION bob") setting.SessionAuthorization (codes "bob") }
    ensures start_up { AsksSettled (codes "SET STARTUP TimeZone TO 'UTC'") (settled.Sets setting.TimeZone (codes "UTC") true) }
    ensures default { AsksSettled (codes "SET timezone TO DEFAULT") (settled.SetsBack setting.TimeZone) }
    ensures reset { AsksSettled (codes "RESET \"TimeZone\"") (settled.Resets setting.TimeZone) }
    ensures reset_all { AsksSettled (codes "RESET ALL") settled.ResetsAll }
    ensures show { AsksSettled (codes "SHOW server_version") (settled.Shows setting.ServerVersion) }
    ensures show_level { AsksSettled (codes "SHOW TRANSACTION ISOLATION LEVEL") (settled.Shows setting.TransactionIsolation) }
    ensures no_value { AsksNothing (codes "SET timezone TO") }
    ensures three_values { AsksNothing (codes "SET DateStyle TO ISO, DMY, MDY") }
    ensures shown_twice { AsksNothing (codes "SHOW timezone datestyle") }
    ensures unknown { AsksRefused (codes "SET a TO b") cause.NoSetting (codes "unrecognized configuration parameter \"a\"") }
    ensures local { AsksRefused (codes "SET LOCAL timezone TO 'UTC'") cause.Unsupported (codes "SET LOCAL is not supported") }
    ensures fixed { AsksRefused (codes "SET is_superuser TO on") cause.Fixed (codes "parameter \"is_superuser\" cannot be changed") }
    ensures fixed_reset { AsksRefused (codes "RESET is_superuser") cause.Fixed (codes "parameter \"is_superuser\" cannot be changed") }
    ensures fixed_default { AsksRefused (codes "SET server_version TO DEFAULT") cause.Fixed (codes "parameter \"server_version\" cannot be changed") }
    ensures fixed_shown { AsksSettled (codes "SHOW is_superuser") (settled.Shows setting.IsSuperuser) }
    ensures bad { AsksRefused (codes "SET intervalstyle TO a") cause.BadValue (codes "invalid value for parameter \"IntervalStyle\": \"a\"") }
    ensures unsupported { AsksRefused (codes "SET client_encoding TO latin1") cause.Unsupported (codes "client_encoding: \"latin1\" is not supported") }
{}

/// Values of settings, and values that are none.
#[tactic(auto, unfolding(pgn_language::specs::Grammar::cut))]
pub fn values()
    ensures name { accepted setting.ApplicationName (9 ∷ codes "a") ≡ Becomes (codes "?a") }
    ensures encoding { accepted setting.ClientEncoding (codes "Unicode") ≡ Becomes (codes "UTF8") }
    ensures ascii { accepted setting.ClientEncoding (codes "SQL_ASCII") ≡ Becomes (codes "SQL_ASCII") }
    ensures no_encoding { accepted setting.ClientEncoding (codes "nonsense") ≡ Invalid }
    ensures windows { accepted setting.ClientEncoding (codes "Windows-1252") ≡ Unsupported }
    ensures no_windows { accepted setting.ClientEncoding (codes "windows1259") ≡ Invalid }
    ensures latin { accepted setting.ClientEncoding (codes "LATIN1") ≡ Unsupported }
    ensures dates { accepted setting.DateStyle (codes "German") ≡ Becomes (codes "German, DMY") }
    ensures no_dates { accepted setting.DateStyle (codes "ISO ISO") ≡ Invalid }
    ensures on { accepted setting.TransactionReadOnly (codes "TR") ≡ Becomes (codes "on") }
    ensures off { accepted setting.DefaultTransactionReadOnly (codes "of") ≡ Becomes (codes "off") }
    ensures neither { accepted setting.TransactionReadOnly (codes "o") ≡ Invalid }
    ensures conforming { accepted setting.StandardConformingStrings (codes "yes") ≡ Becomes (codes "on") }
    ensures not_conforming { accepted setting.StandardConformingStrings (codes "no") ≡ Unsupported }
    ensures intervals { accepted setting.IntervalStyle (codes "SQL_standard") ≡ Becomes (codes "sql_standard") }
    ensures level { accepted setting.ClientMinMessages (codes "debug") ≡ Becomes (codes "debug2") }
    ensures no_level { accepted setting.ClientMinMessages (codes "info") ≡ Invalid }
    ensures digits { accepted setting.ExtraFloatDigits (codes "-15") ≡ Becomes (codes "-15") }
    ensures too_few_digits { accepted setting.ExtraFloatDigits (codes "-16") ≡ Invalid }
    ensures isolation { accepted setting.TransactionIsolation (codes "Repeatable Read") ≡ Becomes (codes "repeatable read") }
    ensures no_isolation { accepted setting.TransactionIsolation (codes "snapshot") ≡ Invalid }
    ensures version { accepted setting.ServerVersion (codes "16") ≡ Unchangeable }
    ensures user { accepted setting.SessionAuthorization (codes "bob") ≡ Becomes (codes "bob") }
    ensures zone { accepted setting.TimeZone (codes "Mars") ≡ Becomes (codes "Mars") }
{}
