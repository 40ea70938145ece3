ghost use Rattle.std.specs.Prelude.{◌≡◌, ℕ, ◌<◌, ◌≤◌, true, false, List, [], ◌∷◌, ◌++◌, length, replicate, count_by, None, Some, Ok, Err, codes};
ghost use Rattle.pgn_language.specs.declared.scenario.ScenarioFault.TheVariants as fault;
ghost use Rattle.pgn_language.specs.Lines.{Says, Opens, Signals, Awaits, says};
ghost use Rattle.pgn_language.specs.Inputs.{ReadsAsScenario, has_quit, has_section, notifies, are_too_many, fault_said};
ghost use Rattle.pgn_language.specs.laws.Inputs.{lacks};
ghost use Rattle.pgn_examples.specs.Runs.{self_notify_scenario, empty_scenario};
ghost use Rattle.pgn_examples.specs.Inputs.{meta_input, meta_scenario, two_sections, two_scenario, quit_scenario, limit_scenario, many_sections, many_flags};

/// Inputs that read as scenarios.
pub fn whole_inputs()
    ensures self_notify { ReadsAsScenario (codes "\\session a 1\nLISTEN c\nNOTIFY c, 'x'\n") (Ok self_notify_scenario) }
    ensures no_last_line_feed { ReadsAsScenario (codes "\\session a 1\nLISTEN c\nNOTIFY c, 'x'") (Ok self_notify_scenario) }
    ensures no_line { ReadsAsScenario (codes "\\session a 1\n") (Ok empty_scenario) }
    ensures blank_lines { ReadsAsScenario (codes "\n -- sessions\n\\session a 1\r\n;\n") (Ok empty_scenario) }
    ensures meta_lines { ReadsAsScenario meta_input (Ok meta_scenario) }
    ensures sections { ReadsAsScenario two_sections (Ok two_scenario) }
    ensures ten_digits { ReadsAsScenario (codes "\\session a 0000000001") (Ok empty_scenario) }
    ensures section_after_quit { ReadsAsScenario (codes "\\session a_b 1\n\\quit\n\n\\session b 1\nLISTEN c") (Ok quit_scenario) }
    ensures past_a_limit { ReadsAsScenario (codes "\\session aaaaaaaaaaaaaaaaaaaaaaaaaaaaaaaaaaaaaaaaaaaaaaaaaaaaaaaaaaaaaaa 1\nSELECT pg_notify('', '')") (Ok limit_scenario) }
{}

/// Bytes that are not UTF-8, and a zero byte, are at fault whatever the line says.
pub fn faults_of_bytes()
    ensures not_utf8 { ReadsAsScenario (codes "\\session a 1\nNOTIFY c, 'abcdef" ++ 255 ∷ []) (Err (fault.NotUtf8 30)) }
    ensures cut_character { ReadsAsScenario (codes "\\x" ++ 195 ∷ 10 ∷ []) (Err (fault.NotUtf8 2)) }
    ensures after_character { ReadsAsScenario (codes "--" ++ 195 ∷ 169 ∷ 255 ∷ []) (Err (fault.NotUtf8 4)) }
    ensures zero_byte_before { ReadsAsScenario (0 ∷ 255 ∷ []) (Err (fault.NotUtf8 1)) }
    ensures blank_line { ReadsAsScenario (10 ∷ 32 ∷ 0 ∷ []) (Err (fault.NulByte 2)) }
    ensures zero_byte { ReadsAsScenario (codes "\\session a 1\nLISTEN c" ++ 0 ∷ []) (Err (fault.NulByte 2)) }
    ensures zero_byte_in_meta { ReadsAsScenario (codes "\\x" ++ 0 ∷ []) (Err (fault.NulByte 1)) }
{}

/// Lines that begin as meta lines and are none, and lines after the end of their session.
pub fn faults_of_meta_lines()
    ensures unknown_word { ReadsAsScenario (codes "\\session a 1\n\\wait f") (Err (fault.BadMeta 2)) }
    ensures upper_case { ReadsAsScenario (codes "\\SESSION a 1") (Err (fault.BadMeta 1)) }
    ensures no_database { ReadsAsScenario (codes "\\session a") (Err (fault.BadMeta 1)) }
    ensures database_zero { ReadsAsScenario (codes "\\session a 00") (Err (fault.BadMeta 1)) }
    ensures database_past_limit { ReadsAsScenario (codes "\\session a 4294967296") (Err (fault.BadMeta 1)) }
    ensures long_database { ReadsAsScenario (codes "\\session a 00000000001") (Err (fault.BadMeta 1)) }
    ensures odd_name { ReadsAsScenario (codes "\\session a.b 1") (Err (fault.BadMeta 1)) }
    ensures dollar_in_name { ReadsAsScenario (codes "\\session a$b 1") (Err (fault.BadMeta 1)) }
    ensures plus_in_name { ReadsAsScenario (codes "\\session a+b 1") (Err (fault.BadMeta 1)) }
    ensures long_name { ReadsAsScenario (codes "\\session aaaaaaaaaaaaaaaaaaaaaaaaaaaaaaaaaaaaaaaaaaaaaaaaaaaaaaaaaaaaaaaa 1") (Err (fault.BadMeta 1)) }
    ensures one_word_more { ReadsAsScenario (codes "\\session a 1 2") (Err (fault.BadMeta 1)) }
    ensures other_blank { ReadsAsScenario (codes "\\session a" ++ 11 ∷ codes "1") (Err (fault.BadMeta 1)) }
    ensures carriage_return { ReadsAsScenario (codes "\\session a\r1") (Err (fault.BadMeta 1)) }
    ensures upper_case_quit { ReadsAsScenario (codes "\\session a 1\n\\QUIT") (Err (fault.BadMeta 2)) }
    ensures odd_flag { ReadsAsScenario (codes "\\session a 1\n\\signal a.b") (Err (fault.BadMeta 2)) }
    ensures long_flag { ReadsAsScenario (codes "\\session a 1\n\\await aaaaaaaaaaaaaaaaaaaaaaaaaaaaaaaaaaaaaaaaaaaaaaaaaaaaaaaaaaaaaaaa") (Err (fault.BadMeta 2)) }
    ensures comment_after { ReadsAsScenario (codes "\\session a 1\n\\quit -- done") (Err (fault.BadMeta 2)) }
    ensures before_any_session { ReadsAsScenario (codes "\\wait f") (Err (fault.BadMeta 1)) }
    ensures command_after_quit { ReadsAsScenario (codes "\\session a 1\n\\quit\n\nLISTEN c") (Err (fault.BadMeta 4)) }
    ensures quit_after_quit { ReadsAsScenario (codes "\\session a 1\n\\quit\n\\quit") (Err (fault.BadMeta 3)) }
{}

/// Lines that stand where they may not, and the faults of a whole input.
pub fn faults_of_sections()
    ensures no_session { ReadsAsScenario (codes "NOTIFY c") (Err (fault.NoSession 1)) }
    ensures flag_before_session { ReadsAsScenario (codes "-- x\n\\signal f\n\\session a 1") (Err (fault.NoSession 2)) }
    ensures quit_before_session { ReadsAsScenario (codes "\\quit\n\\session a 1") (Err (fault.NoSession 1)) }
    ensures same_name { ReadsAsScenario (codes "\\session a 1\n\\session b 1\n\\session a 2") (Err (fault.SameName 3)) }
    ensures other_case { ReadsAsScenario (codes "\\session a 1\n\\session A 1\n\\signal") (Err (fault.BadMeta 3)) }
    ensures nothing { ReadsAsScenario [] (Err fault.Empty) }
    ensures only_blank { ReadsAsScenario (codes "\n;\n-- \\session a 1\n") (Err fault.Empty) }
    ensures never_signalled { ReadsAsScenario (codes "\\session a 1\n\\await f") (Err (fault.NeverSignalled 2)) }
    ensures other_case_flag { ReadsAsScenario (codes "\\session a 1\n\\await f\n\\signal F") (Err (fault.NeverSignalled 2)) }
    ensures lowest_await { ReadsAsScenario (codes "\\session a 1\n\\signal g\n\\await g\n\\await f\n\\await e\n") (Err (fault.NeverSignalled 4)) }
    ensures lowest_line { ReadsAsScenario (codes "\\session a 1\n\\await f\n\\session a 1\n\\x") (Err (fault.SameName 3)) }
{}

/// What is past a limit, and what is not: an input, a line, a line that notifies after others, sections, flags.
pub fn faults_of_size()
    ensures input { (input : List ℕ) → 16777216 < length input → ReadsAsScenario input (Err fault.TooLarge) }
    ensures line { (line : List ℕ) → length line ≤ 16777216 → 65536 < length line → lacks 10 line ≡ true → ReadsAsScenario line (Err (fault.LineTooLong 1)) }
    ensures input_within { (input : List ℕ) → length input ≤ 16777216 → ReadsAsScenario input (Err fault.TooLarge) → ⊥ }
    ensures line_within { (n : ℕ) → n ≤ 65536 → ReadsAsScenario (replicate n 32) (Err fault.Empty) }
    ensures long_before_utf8 { ReadsAsScenario (replicate 65537 255) (Err (fault.LineTooLong 1)) }
    ensures note_line_within { (n : ℕ) (before : List Says) → has_quit before ≡ false → has_section before ≡ true → are_too_many before ≡ false → count_by notifies before ≤ 65535 → fault_said n before (says (codes "NOTIFY c")) ≡ None }
    ensures note_line { (n : ℕ) (before : List Says) → has_quit before ≡ false → has_section before ≡ true → count_by notifies before ≡ 65536 → fault_said n before (says (codes "NOTIFY c")) ≡ Some (fault.TooMany n) }
    ensures sections_within { fault_said 256 (many_sections 255) (Opens (codes "s256") 1) ≡ None }
    ensures sections { fault_said 257 (many_sections 256) (Opens (codes "s257") 1) ≡ Some (fault.TooMany 257) }
    ensures flags_within { fault_said 257 (many_flags Signals 255) (Awaits (codes "f256")) ≡ None }
    ensures flags { fault_said 258 (many_flags Signals 256) (Signals (codes "f257")) ≡ Some (fault.TooMany 258) }
    ensures awaited_flags { fault_said 258 (many_flags Awaits 256) (Awaits (codes "f257")) ≡ Some (fault.TooMany 258) }
    ensures name_first { fault_said 257 (many_sections 256) (Opens (codes "s1") 1) ≡ Some (fault.SameName 257) }
{}
