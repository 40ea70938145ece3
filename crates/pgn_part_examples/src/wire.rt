//! What stands written of an answer, how far a listener has read, and which queries a script has; beside each what is refused.
ghost use Rattle.std.specs.Prelude.{[], ◌∷◌, ◌++◌, None, Some};
ghost use Rattle.pgn_part_examples.specs.Hub.{listening};
ghost use Rattle.pgn_model.specs.declared.item.Item.TheVariants.{Enlist};
ghost use Rattle.pgn_examples.specs.Queries.{asks_listen, asks_notify, listen_line, notify_line};
ghost use Rattle.pgn_examples.specs.Messages.{conversation, quits};
ghost use Rattle.pgn_session.specs.FirstRead.{HasReadTold};
ghost use Rattle.pgn_wire.specs.Serving.{AreWhole, AsksAll, BeginsByLine, HasAsked, HasWritten};
ghost use Rattle.pgn_part_examples.specs.Wire.{half_answer, listens, memory_lacked, whole_answer, write_failed};

/// Of an answer all stands written or nothing.
pub fn answers()
    ensures line { BeginsByLine listens }
    ensures no_line { BeginsByLine (Enlist 3 3 ∷ []) → ⊥ }
    ensures whole { AreWhole (conversation (listen_line ∷ [])) listens whole_answer }
    ensures nothing { AreWhole (conversation (listen_line ∷ [])) listens [] }
    ensures half { AreWhole (conversation (listen_line ∷ [])) listens half_answer → ⊥ }
{}

/// By how a session ended: half an answer may stand written where a write failed, and only there.
pub fn ends()
    ensures failed_write { HasWritten write_failed (Some []) (Some half_answer) (conversation (listen_line ∷ [])) listens }
    ensures want_of_memory { HasWritten memory_lacked (Some []) (Some half_answer) (conversation (listen_line ∷ [])) listens → ⊥ }
{}

/// A listener has read up to what it was told of, or has not.
pub fn read_up()
    ensures met { HasReadTold listening }
    ensures told_of_more { HasReadTold (record listening { told = 4 }) → ⊥ }
{}

/// A script has all queries of a client, or the first of them.
pub fn asked()
    ensures all { AsksAll (asks_listen ++ asks_notify) None quits (conversation (listen_line ∷ notify_line ∷ [])) }
    ensures one_left_out { AsksAll (asks_listen ++ asks_notify) None quits (conversation (listen_line ∷ [])) → ⊥ }
    ensures first { HasAsked (asks_listen ++ asks_notify) quits (conversation (listen_line ∷ [])) }
    ensures never_asked { HasAsked asks_listen quits (conversation (listen_line ∷ notify_line ∷ [])) → ⊥ }
{}
