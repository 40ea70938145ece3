ghost use Rattle.std.specs.Prelude.{◌≡◌, ◌≢◌, List, [], ◌∷◌};
ghost use Rattle.pgn_journal.specs.declared.tx.Tx.{Tx};
ghost use Rattle.pgn_language.specs.declared.scenario.Scenario.{Scenario};
ghost use Rattle.pgn_model.specs.declared.item.Item.TheVariants.{Publish, QueueFull, Read};
ghost use Rattle.pgn_model.specs.Walk.{Settings};
ghost use Rattle.pgn_reading.specs.Bare.{IsLegalBare, bare, bare_item};
ghost use Rattle.pgn_examples.specs.Merge.{full_4, note_a, note_b, of_session, one_section, received};

/// Of an item that shows a transaction as finished its notifications go, and of no other item anything.
pub fn bare_items()
    ensures commit { bare_item (Publish 3 (note_a ∷ note_b ∷ [])) ≡ Publish 3 [] }
    ensures full { bare_item (QueueFull full_4 (note_a ∷ [])) ≡ QueueFull full_4 [] }
    ensures read { bare_item (Read 3 5 received) ≡ Read 3 5 received }
    // It keeps all of them, or the last.
    ensures kept { bare_item (Publish 3 (note_a ∷ [])) ≢ Publish 3 (note_a ∷ []) }
    ensures kept_one { bare_item (QueueFull full_4 (note_a ∷ note_b ∷ [])) ≢ QueueFull full_4 (note_b ∷ []) }
    // It has another number.
    ensures numbered { bare_item (Publish 3 (note_a ∷ [])) ≢ Publish 4 [] }
    // What was received goes too.
    ensures received { bare_item (Read 3 5 received) ≢ Read 3 5 [] }
{}

/// A trace keeps all its items, its session, its database and its mark.
pub fn bare_traces()
    ensures items { bare (of_session 1 7 (Publish 3 (note_a ∷ []) ∷ Read 3 5 received ∷ [])) ≡ of_session 1 7 (Publish 3 [] ∷ Read 3 5 received ∷ []) }
    ensures lost { bare (of_session 1 7 (Publish 3 (note_a ∷ []) ∷ [])) ≢ of_session 1 7 [] }
    ensures other { bare (of_session 1 7 []) ≢ of_session 2 7 [] }
{}

/// What no legal run leaves bare.
pub fn refused_runs()
    // The notifications of the first commit are still there.
    ensures kept { (scenario : Scenario) (settings : Settings) (journal : List Tx) → IsLegalBare scenario settings journal (of_session 1 7 (Publish 3 (note_a ∷ []) ∷ []) ∷ []) → ⊥ }
    // There is no trace of the session.
    ensures lost { (settings : Settings) (journal : List Tx) → IsLegalBare one_section settings journal [] → ⊥ }
{}
