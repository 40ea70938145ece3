ghost use Rattle.std.specs.Prelude.{◌≡◌, ◌-◌, ◌^◌, true, false, [], ◌∷◌, map, drop, Some, None};
ghost use Rattle.std.specs.Str.{byte};
ghost use Rattle.pgn_base.specs.declared.format.Format.TheVariants.{One, Two};
ghost use Rattle.pgn_journal.specs.Bytes.{entry_length, spelled, filler, IsHead, IsEntryLength};
ghost use Rattle.pgn_journal.specs.Packing.{page_of, place_at, bytes_left, fits, filled_cells, image, place, put, put_all, HasRoom};
ghost use Rattle.pgn_examples.specs.Runs.{self_notify_journal};
ghost use Rattle.pgn_examples.specs.Packing.{virtual_note, virtual_bytes, virtual_cells, bare_note, bare_bytes, bare_bytes_two, large_number_bytes, filler_bytes, filler_bytes_two, letters, longest_note, rest_journal, filler_journal, filler_and_entry, filler_journal_two, filler_and_entry_two, full_journal, larger_journal};

/// The bytes of entries and of fillers, in both formats.
pub fn entry_bytes()
    // The bytes of two entries and of a filler.
    ensures whole { spelled One virtual_note 1 3 1001 ≡ virtual_bytes }
    ensures cells { filled_cells virtual_bytes ≡ virtual_cells }
    ensures shortest { spelled One bare_note 7 4 1003 ≡ bare_bytes }
    ensures filler { filler One 20 5 1002 ≡ filler_bytes }
    ensures longest { entry_length One longest_note ≡ 8080 }
    // The bytes of two entries and of a filler of format Two, and the lengths of three.
    ensures two_shortest { spelled Two bare_note 7 4 1003 ≡ bare_bytes_two }
    ensures two_least { entry_length Two bare_note ≡ 32 }
    ensures two_whole { entry_length Two virtual_note ≡ 56 }
    ensures two_longest { entry_length Two longest_note ≡ 8088 }
    ensures two_large_number { spelled Two bare_note 7 0x0102030405060708 1003 ≡ large_number_bytes }
    ensures two_filler { filler Two 32 0x0102030405060708 1002 ≡ filler_bytes_two }
{}

/// Entries of 8020 and 152 bytes lead to offset 8172, where an entry of 20 takes the rest of the page, and an entry of 24 comes
/// after a filler of 20. Entries of 8020 and 156 bytes lead to offset 8176, where no entry fits, so that four cells stay empty.
pub fn page_edge()
    ensures lengths { map (entry_length One) (letters (byte "x") 7999 ∷ letters (byte "x") 133 ∷ letters (byte "x") 1 ∷ letters (byte "x") 5 ∷ letters (byte "x") 137 ∷ []) ≡ 8020 ∷ 152 ∷ 20 ∷ 24 ∷ 156 ∷ [] }
    ensures edge { put_all One (place_at 0 0) (letters (byte "x") 7999 ∷ letters (byte "x") 133 ∷ []) ≡ place_at 0 8172 }
    ensures fits { fits (place_at 0 8172) 20 ≡ true }
    ensures no_filler { put One (place_at 0 8172) (letters (byte "x") 1) ≡ place_at 1 0 }
    ensures fits_not { fits (place_at 0 8172) 24 ≡ false }
    ensures filler { bytes_left (place_at 0 8172) ≡ 20 }
    ensures filler_cells { drop (place_at 0 8172) (image One filler_journal) ≡ filler_and_entry }
    ensures no_room { put_all One (place_at 0 0) (letters (byte "x") 7999 ∷ letters (byte "x") 137 ∷ []) ≡ place_at 1 0 }
    ensures empty_cells { drop (place_at 0 8176) (image One rest_journal) ≡ None ∷ None ∷ None ∷ None ∷ [] }
    ensures after_filler { put One (place_at 0 8172) (letters (byte "x") 5) ≡ place_at 1 24 }
{}

/// In format Two entries of 8088 and 72 bytes lead to offset 8160, where an entry of 32 takes the rest of the page, and an entry of
/// 40 comes after a filler of 32.
pub fn page_edge_of_two()
    ensures lengths { map (entry_length Two) (longest_note ∷ letters (byte "x") 45 ∷ letters (byte "x") 5 ∷ letters (byte "x") 13 ∷ []) ≡ 8088 ∷ 72 ∷ 32 ∷ 40 ∷ [] }
    ensures edge { put_all Two (place_at 0 0) (longest_note ∷ letters (byte "x") 45 ∷ []) ≡ place_at 0 8160 }
    ensures fits { fits (place_at 0 8160) 32 ≡ true }
    ensures no_filler { put Two (place_at 0 8160) (letters (byte "x") 5) ≡ place_at 1 0 }
    ensures fits_not { fits (place_at 0 8160) 40 ≡ false }
    ensures filler { bytes_left (place_at 0 8160) ≡ 32 }
    ensures filler_cells { drop (place_at 0 8160) (image Two filler_journal_two) ≡ filler_and_entry_two }
    ensures after_filler { put Two (place_at 0 8160) (letters (byte "x") 13) ≡ place_at 1 40 }
{}

/// The places of the transactions of four journals, and where an entry may begin.
pub fn places()
    // The five cells of the transaction of a session that notifies itself, and the places from the journal's end on.
    ensures one_entry { map (place One self_notify_journal) (3 ∷ 4 ∷ 5 ∷ 9 ∷ []) ≡ place_at 0 0 ∷ place_at 0 20 ∷ place_at 0 20 ∷ place_at 0 20 ∷ [] }
    ensures cells_of_one { image One self_notify_journal ≡ Some 20 ∷ Some 1 ∷ Some 3 ∷ Some 1001 ∷ Some 0x00780063 ∷ [] }
    // Two transactions fill two pages, two more meet a full queue, and a last one is committed on the page after them.
    ensures filler_when_full { bytes_left (place_at 0 8020) ≡ 172 }
    ensures full_places { map (place One full_journal) (3 ∷ 4 ∷ 5 ∷ 6 ∷ 7 ∷ 8 ∷ []) ≡ place_at 0 0 ∷ place_at 0 8020 ∷ place_at 1 8020 ∷ place_at 2 0 ∷ place_at 2 0 ∷ place_at 2 24 ∷ [] }
    // A transaction larger than two pages is aborted after two of its notifications, and the next one begins on the third page.
    ensures queued_of_larger { put_all One (place_at 0 0) (letters (byte "x") 7999 ∷ letters (byte "y") 7999 ∷ []) ≡ place_at 1 8020 }
    ensures larger_places { map (place One larger_journal) (4 ∷ 5 ∷ []) ≡ place_at 2 0 ∷ place_at 2 20 ∷ [] }
    ensures page_of_larger { page_of (place One larger_journal 4) ≡ 2 }
    // The places where an entry may begin.
    ensures room_last { HasRoom One (place_at 0 8172) }
    ensures room_last_of_two { HasRoom Two (place_at 0 8160) }
    ensures room_odd_cell { HasRoom One (place_at 0 4) }
    ensures room_odd_cell_of_two { HasRoom Two (place_at 0 4) → ⊥ }
    ensures room_too_late { HasRoom One (place_at 0 8176) → ⊥ }
    ensures room_too_late_of_two { HasRoom Two (place_at 0 8168) → ⊥ }
{}

/// What fits into the head of an entry, and which lengths it may have.
pub fn heads_and_lengths()
    // The numbers that fit at the head of an entry.
    ensures largest { IsHead One (2 ^ 32 - 1) (2 ^ 32 - 1) (2 ^ 32 - 1) }
    ensures largest_of_two { IsHead Two (2 ^ 32 - 1) (2 ^ 64 - 1) (2 ^ 32 - 1) }
    ensures database { IsHead Two (2 ^ 32) 3 1001 → ⊥ }
    ensures number { IsHead One 1 (2 ^ 32) 1001 → ⊥ }
    ensures number_of_two { IsHead Two 1 (2 ^ 64) 1001 → ⊥ }
    ensures process { IsHead Two 1 3 (2 ^ 32) → ⊥ }
    // The lengths that an entry may have.
    ensures length_least { IsEntryLength One 20 }
    ensures length_least_of_two { IsEntryLength Two 32 }
    ensures length_whole_page { IsEntryLength One 8192 × IsEntryLength Two 8192 }
    ensures length_too_short { IsEntryLength One 16 → ⊥ }
    ensures length_too_short_of_two { IsEntryLength Two 24 → ⊥ }
    ensures length_not_aligned { IsEntryLength One 22 → ⊥ }
    ensures length_not_aligned_of_two { IsEntryLength Two 36 → ⊥ }
    ensures length_too_long { IsEntryLength One 8196 → ⊥ }
    ensures length_too_long_of_two { IsEntryLength Two 8200 → ⊥ }
{}
