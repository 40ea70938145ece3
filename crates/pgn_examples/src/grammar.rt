ghost use Rattle.std.specs.Prelude.{[], ◌∷◌, ◌++◌, replicate, codes};
ghost use Rattle.pgn_base.specs.declared.answers.Which.TheVariants.{ChannelEmpty, ChannelTooLong, PayloadTooLong};
ghost use Rattle.pgn_base.specs.declared.command.Command.TheVariants as command;
ghost use Rattle.pgn_language.specs.Grammar.{ReadsAs};

/// Lines, each with its answer.
pub fn lines_and_answers()
    ensures no_name { ReadsAs (codes "LISTEN") (command.Bad 6) }
    ensures number_for_name { ReadsAs (codes "LISTEN 5") (command.Bad 7) }
    ensures no_comma { ReadsAs (codes "NOTIFY c 'x'") (command.Bad 9) }
    ensures no_literal { ReadsAs (codes "NOTIFY c,") (command.Bad 9) }
    ensures escaped_literal { ReadsAs (codes "NOTIFY c, E'x'") (command.Bad 10) }
    ensures quoted_name { ReadsAs (codes "listen \"A\"\"b\" ; -- now") (command.Listen (codes "A\"b")) }
    ensures savepoint_as_name { ReadsAs (codes "Rollback To Savepoint") (command.RollbackTo (codes "savepoint")) }
    ensures folded_name { ReadsAs (codes "notify Foo, 'it''s'") (command.Notify (record { channel = codes "foo"; payload = codes "it's" })) }
    ensures only_a_quote { ReadsAs (codes "notify c, ''''") (command.Notify (record { channel = codes "c"; payload = codes "'" })) }
    ensures plain_backslash { ReadsAs (codes "NOTIFY c, '\\'") (command.Notify (record { channel = codes "c"; payload = codes "\\" })) }
    ensures two_semicolons { ReadsAs (codes "LISTEN a;;") (command.Bad 9) }
    ensures two_commands { ReadsAs (codes "LISTEN a; LISTEN b") (command.Bad 10) }
    ensures work_and_transaction { ReadsAs (codes "BEGIN WORK TRANSACTION") (command.Bad 11) }
    ensures null_for_literal { ReadsAs (codes "NOTIFY c, NULL") (command.Bad 10) }
    ensures start_alone { ReadsAs (codes "START") (command.Bad 5) }
    ensures no_open_bracket { ReadsAs (codes "SELECT pg_listening_channels)") (command.Bad 28) }
{}

/// A line of each command.
pub fn each_command()
    ensures empty { ReadsAs (codes "") (command.Empty) }
    ensures begin { ReadsAs (codes "BEGIN") (command.Begin) }
    ensures start { ReadsAs (codes "Start Transaction;") (command.Start) }
    ensures commit { ReadsAs (codes "commit work") (command.Commit) }
    ensures commit_by_end { ReadsAs (codes "END") (command.Commit) }
    ensures rollback { ReadsAs (codes "ROLLBACK TRANSACTION ;") (command.Rollback) }
    ensures rollback_by_abort { ReadsAs (codes "abort") (command.Rollback) }
    ensures savepoint { ReadsAs (codes "SAVEPOINT s") (command.Savepoint (codes "s")) }
    ensures rollback_to { ReadsAs (codes "ROLLBACK WORK TO SAVEPOINT S;") (command.RollbackTo (codes "s")) }
    ensures release { ReadsAs (codes "RELEASE s") (command.Release (codes "s")) }
    ensures listen { ReadsAs (codes "LISTEN c") (command.Listen (codes "c")) }
    ensures unlisten { ReadsAs (codes "UNLISTEN \"C d\"") (command.Unlisten (codes "C d")) }
    ensures unlisten_all { ReadsAs (codes "unlisten*") (command.UnlistenAll) }
    ensures notify { ReadsAs (codes "NOTIFY c") (command.Notify (record { channel = codes "c"; payload = [] })) }
    ensures pg_notify { ReadsAs (codes "SELECT pg_notify('C', 'x')") (command.PgNotify (record { channel = codes "C"; payload = codes "x" })) }
    ensures channels { ReadsAs (codes "SELECT pg_listening_channels();") (command.ListeningChannels) }
    ensures usage { ReadsAs (codes "select PG_NOTIFICATION_QUEUE_USAGE ( )") (command.QueueUsage) }
{}

/// After TO and after RELEASE the word SAVEPOINT is the key word where a name follows, and else the name. After SAVEPOINT it is the
/// name.
pub fn savepoint_word()
    ensures release { ReadsAs (codes "RELEASE SAVEPOINT") (command.Release (codes "savepoint")) }
    ensures release_ended { ReadsAs (codes "RELEASE SAVEPOINT ;") (command.Release (codes "savepoint")) }
    ensures release_key { ReadsAs (codes "RELEASE SAVEPOINT Savepoint") (command.Release (codes "savepoint")) }
    ensures release_quoted { ReadsAs (codes "RELEASE \"SAVEPOINT\" s") (command.Bad 20) }
    ensures release_two { ReadsAs (codes "RELEASE SAVEPOINT a b") (command.Bad 20) }
    ensures release_none { ReadsAs (codes "RELEASE") (command.Bad 7) }
    ensures back_key { ReadsAs (codes "ROLLBACK TO SAVEPOINT work") (command.RollbackTo (codes "work")) }
    ensures back_none { ReadsAs (codes "ROLLBACK TRANSACTION TO") (command.Bad 23) }
    ensures back_to { ReadsAs (codes "ROLLBACK TO to") (command.RollbackTo (codes "to")) }
    ensures abort_to { ReadsAs (codes "ABORT TO s") (command.Bad 6) }
    ensures savepoint_twice { ReadsAs (codes "SAVEPOINT SAVEPOINT s") (command.Bad 20) }
{}

/// What is no token fits nowhere, and begins where it begins.
pub fn wrong_tokens()
    ensures unclosed_name { ReadsAs (codes "LISTEN \"a;") (command.Bad 7) }
    ensures unclosed_doubled { ReadsAs (codes "LISTEN \"a\"\"") (command.Bad 7) }
    ensures no_character { ReadsAs (codes "LISTEN \"\"") (command.Bad 7) }
    ensures one_quote { ReadsAs (codes "LISTEN \"\"\"\"") (command.Listen (codes "\"")) }
    ensures unclosed_literal { ReadsAs (codes "NOTIFY c, 'x''") (command.Bad 10) }
    ensures other_character { ReadsAs (codes "LISTEN a-b") (command.Bad 8) }
    ensures one_dash { ReadsAs (codes "-") (command.Bad 0) }
    ensures dash_for_name { ReadsAs (codes "LISTEN -") (command.Bad 7) }
    ensures comment { ReadsAs (codes "LISTEN a--b") (command.Listen (codes "a")) }
    ensures comment_only { ReadsAs (codes "LISTEN -- x") (command.Bad 11) }
    ensures comment_in_quotes { ReadsAs (codes "LISTEN \"a--b\"") (command.Listen (codes "a--b")) }
    ensures dollar_first { ReadsAs (codes "LISTEN $a") (command.Bad 7) }
    ensures dollar_inside { ReadsAs (codes "LISTEN a$1_") (command.Listen (codes "a$1_")) }
    ensures at_sign_first { ReadsAs (codes "LISTEN @a") (command.Bad 7) }
    ensures dot_inside { ReadsAs (codes "LISTEN a.b") (command.Bad 8) }
    ensures digit_first { ReadsAs (codes "LISTEN 1a") (command.Bad 7) }
    ensures quoted_key_word { ReadsAs (codes "\"LISTEN\" a") (command.Bad 0) }
    ensures earlier_token { ReadsAs (codes "COMMIT c 'x") (command.Bad 7) }
{}

/// The arguments of pg_notify.
pub fn arguments()
    ensures null { ReadsAs (codes "select pg_notify('c', null)") (command.PgNotify (record { channel = codes "c"; payload = [] })) }
    ensures repeated { ReadsAs (codes "select pg_notify('c', Repeat('ab', 3));") (command.PgNotify (record { channel = codes "c"; payload = codes "ababab" })) }
    ensures repeated_none { ReadsAs (codes "select pg_notify('c', repeat('ab', 00))") (command.PgNotify (record { channel = codes "c"; payload = [] })) }
    ensures repeated_both { ReadsAs (codes "select pg_notify(repeat('c', 2), repeat('x', 01))") (command.PgNotify (record { channel = codes "cc"; payload = codes "x" })) }
    ensures repeated_null { ReadsAs (codes "SELECT pg_notify('c', repeat(NULL, 3))") (command.Bad 29) }
    ensures number_too_great { ReadsAs (codes "select pg_notify('c', repeat('', 10001))") (command.Bad 33) }
    ensures greatest_number { ReadsAs (codes "select pg_notify('c', repeat('', 10000))") (command.PgNotify (record { channel = codes "c"; payload = [] })) }
    ensures longer_number { ReadsAs (codes "select pg_notify('c', repeat('', 100000000000000000000000))") (command.Bad 33) }
    ensures one_argument { ReadsAs (codes "select pg_notify('c')") (command.Bad 20) }
    ensures word { ReadsAs (codes "select pg_notify(c, 'x')") (command.Bad 17) }
    ensures quoted_null { ReadsAs (codes "select pg_notify(\"NULL\", 'x')") (command.Bad 17) }
    ensures negative { ReadsAs (codes "select pg_notify('c', repeat('x', -1))") (command.Bad 34) }
{}

/// Limits of notifications and of names, and characters past ASCII.
pub fn limits()
    // The limits of a notification are tested in order.
    ensures null_channel { ReadsAs (codes "select pg_notify(NULL, 'x')") (command.Invalid ChannelEmpty) }
    ensures empty_channel { ReadsAs (codes "select pg_notify('', repeat('x', 8000))") (command.Invalid ChannelEmpty) }
    ensures long_channel { ReadsAs (codes "select pg_notify(repeat('c', 64), repeat('x', 8000))") (command.Invalid ChannelTooLong) }
    ensures longest_channel { ReadsAs (codes "select pg_notify(repeat('c', 63), '')") (command.PgNotify (record { channel = codes "ccccccccccccccccccccccccccccccccccccccccccccccccccccccccccccccc"; payload = [] })) }
    ensures long_payload { ReadsAs (codes "select pg_notify('c', repeat('x', 8000))") (command.Invalid PayloadTooLong) }
    ensures long_literal { ReadsAs (codes "NOTIFY c, '" ++ replicate 8000 120 ++ codes "'") (command.Invalid PayloadTooLong) }
    ensures longest_literal { ReadsAs (codes "NOTIFY c, '" ++ replicate 7999 120 ++ codes "'") (command.Notify (record { channel = codes "c"; payload = replicate 7999 120 })) }
    // Names are cut to 63 bytes, and key words are not.
    ensures cut_word { ReadsAs (codes "LISTEN AAAAAAAAAAAAAAAAAAAAAAAAAAAAAAAAAAAAAAAAAAAAAAAAAAAAAAAAAAAAAAAA") (command.Listen (codes "aaaaaaaaaaaaaaaaaaaaaaaaaaaaaaaaaaaaaaaaaaaaaaaaaaaaaaaaaaaaaaa")) }
    ensures cut_quoted { ReadsAs (codes "LISTEN \"AAAAAAAAAAAAAAAAAAAAAAAAAAAAAAAAAAAAAAAAAAAAAAAAAAAAAAAAAAAAAAA\"") (command.Listen (codes "AAAAAAAAAAAAAAAAAAAAAAAAAAAAAAAAAAAAAAAAAAAAAAAAAAAAAAAAAAAAAAA")) }
    // Characters past ASCII are not folded and not cut in two.
    ensures not_folded { ReadsAs (codes "LISTEN A" ++ (195 ∷ 137 ∷ [])) (command.Listen (codes "a" ++ (195 ∷ 137 ∷ []))) }
    ensures whole_character { ReadsAs (codes "LISTEN aaaaaaaaaaaaaaaaaaaaaaaaaaaaaaaaaaaaaaaaaaaaaaaaaaaaaaaaaaaaaa" ++ (195 ∷ 169 ∷ [])) (command.Listen (codes "aaaaaaaaaaaaaaaaaaaaaaaaaaaaaaaaaaaaaaaaaaaaaaaaaaaaaaaaaaaaaa")) }
    ensures last_character { ReadsAs (codes "LISTEN aaaaaaaaaaaaaaaaaaaaaaaaaaaaaaaaaaaaaaaaaaaaaaaaaaaaaaaaaaaaa" ++ (195 ∷ 169 ∷ 195 ∷ 169 ∷ [])) (command.Listen (codes "aaaaaaaaaaaaaaaaaaaaaaaaaaaaaaaaaaaaaaaaaaaaaaaaaaaaaaaaaaaaa" ++ (195 ∷ 169 ∷ []))) }
    ensures three_bytes { ReadsAs (codes "LISTEN aaaaaaaaaaaaaaaaaaaaaaaaaaaaaaaaaaaaaaaaaaaaaaaaaaaaaaaaaaaaa" ++ (226 ∷ 130 ∷ 172 ∷ [])) (command.Listen (codes "aaaaaaaaaaaaaaaaaaaaaaaaaaaaaaaaaaaaaaaaaaaaaaaaaaaaaaaaaaaaa")) }
    ensures last_three_bytes { ReadsAs (codes "LISTEN aaaaaaaaaaaaaaaaaaaaaaaaaaaaaaaaaaaaaaaaaaaaaaaaaaaaaaaaaaaa" ++ (226 ∷ 130 ∷ 172 ∷ 97 ∷ [])) (command.Listen (codes "aaaaaaaaaaaaaaaaaaaaaaaaaaaaaaaaaaaaaaaaaaaaaaaaaaaaaaaaaaaa" ++ (226 ∷ 130 ∷ 172 ∷ []))) }
{}

/// What says nothing is the command Empty.
pub fn blank_lines()
    ensures blanks { ReadsAs (codes " \t\r") (command.Empty) }
    ensures feed_and_vertical_tab { ReadsAs (codes "LISTEN" ++ 12 ∷ 11 ∷ codes "a") (command.Listen (codes "a")) }
    ensures comment { ReadsAs (codes "-- LISTEN c") (command.Empty) }
    ensures semicolon { ReadsAs (codes " ; -- x") (command.Empty) }
    ensures two { ReadsAs (codes "; ;") (command.Bad 2) }
{}
