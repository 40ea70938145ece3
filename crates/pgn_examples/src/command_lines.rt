ghost use Rattle.std.specs.Prelude.{◌≡◌, ◌++◌, true, map, not, is_some, Some};
ghost use Rattle.std.specs.List.{list_all};
ghost use Rattle.pgn_options.specs.declared.asked.Asked.TheVariants.{Wire};
ghost use Rattle.pgn_options.specs.Words.{asked_by};
ghost use Rattle.pgn_drill.specs.Drill.{drill};
ghost use Rattle.pgn_examples.specs.CommandLines.{checks, limits_of_checks, runs_with_limits, limits_of_runs, drills, numbers_of_drills, wrong_numbers, wrong_words, least_drill, first_of_four, second_of_four, last_of_four, drawn_anew, wires, serves, seats_of_serves};

/// Words, and what they ask for.
pub fn commands()
    // Words that are a command, and what they ask for.
    ensures runs { map asked_by runs_with_limits ≡ limits_of_runs }
    ensures drills { map asked_by drills ≡ numbers_of_drills }
    ensures checks { map asked_by checks ≡ limits_of_checks }
    ensures wires { map asked_by wires ≡ map (λ line. Some Wire) wires }
    ensures serves { map asked_by serves ≡ seats_of_serves }
    // Words that are none.
    ensures wrong_numbers { list_all (λ words. not (is_some (asked_by words))) wrong_numbers ≡ true }
    ensures wrong_words { list_all (λ words. not (is_some (asked_by words))) wrong_words ≡ true }
{}

/// The scenarios of drills.
pub fn scenarios_of_drills()
    // The scenario of the least drill.
    ensures drill_of_one { drill 0 1 1 ≡ least_drill }
    // The scenario of a drill of four sessions, each of which draws on where the one before it stopped.
    ensures drill_of_four { drill 7 4 2 ≡ first_of_four ++ second_of_four ++ last_of_four }
    ensures drawn_once { drill 7 4 2 ≡ first_of_four ++ drawn_anew ++ last_of_four → ⊥ }
{}
