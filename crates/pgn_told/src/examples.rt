//! What a client sees of a trace, what it cannot tell apart, and scripts that are no client's.
ghost use Rattle.std.specs.Prelude.{◌≡◌, [], ◌∷◌};
ghost use Rattle.pgn_model.specs.declared.item.Item.TheVariants.{Enlist, Read};
ghost use Rattle.pgn_told.specs.Told.{AsksThenQuits, but_queued, seen};
ghost use Rattle.pgn_told.specs.Examples.{cut_short, told_items, told_query, told_quit, told_section, told_seen, told_signal, went_through};

/// Items of eight kinds, and what the client sees of them.
pub fn what_a_client_sees()
    ensures met { seen told_items ≡ told_seen }
    ensures nothing { seen told_items ≡ [] → ⊥ }
    // Whoever receives from another number on sees the same, and so does who reads and gets nothing.
    ensures other_point { seen (Enlist 3 4 ∷ []) ≡ seen (Enlist 3 3 ∷ []) }
    ensures empty_read { seen (Read 3 4 [] ∷ []) ≡ [] }
{}

/// How many notifications of a transaction were queued, where it was aborted, is not told; how it ended is.
pub fn what_journals_are_told_apart()
    ensures not_queued { but_queued (cut_short 0) ≡ but_queued (cut_short 1) }
    ensures fate { but_queued (cut_short 0) ≡ but_queued went_through → ⊥ }
    ensures committed { but_queued went_through ≡ went_through }
{}

/// A client's script ends by its `\quit`, and each line before it runs a command.
pub fn clients_scripts()
    ensures met { AsksThenQuits (told_section (told_query ∷ told_quit ∷ [])) }
    ensures nothing_asked { AsksThenQuits (told_section (told_quit ∷ [])) }
    ensures no_quit { AsksThenQuits (told_section (told_query ∷ [])) → ⊥ }
    ensures a_flag { AsksThenQuits (told_section (told_signal ∷ told_quit ∷ [])) → ⊥ }
{}
