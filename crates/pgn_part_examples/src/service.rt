//! What a client's trace may be so far, and what seats are served; beside each what is refused.
ghost use Rattle.std.specs.Prelude.{◌≡◌, [], ◌∷◌, ◌++◌, map, None, Some};
ghost use Rattle.pgn_base.specs.declared.answers.Tag.TheVariants as tag;
ghost use Rattle.pgn_model.specs.declared.item.Item.TheVariants.{Line, Read, Reply};
ghost use Rattle.pgn_examples.specs.Queries.{listen_line};
ghost use Rattle.pgn_messages.specs.declared.asked.Ask.TheVariants.{Query};
ghost use Rattle.pgn_messages.specs.Asks.{seat_quit};
ghost use Rattle.pgn_examples.specs.Turns.{idle_items, listen, listen_bytes, other_bytes, sent_by};
ghost use Rattle.pgn_service.specs.Conversation.{IsAnsweredSoFar, IsSoFar};
ghost use Rattle.pgn_service.specs.Service.{IsToldOf, RunsSeats, StopsServing};
ghost use Rattle.pgn_part_examples.specs.Service.{listens};

use pgn_examples::turns::{not_told, told};

/// What a client that asked `LISTEN c` may have seen so far.
pub fn so_far()
    ensures answered { IsSoFar (listen_line ∷ []) (λ items. items ≡ listens) }
    ensures nothing { IsSoFar (listen_line ∷ []) (λ items. items ≡ []) }
    // No answer comes before its query, nor one to a query that was not asked.
    ensures answer_first { IsSoFar (listen_line ∷ []) (λ items. items ≡ Reply tag.Listen None ∷ [])
        → ⊥ }
    ensures not_asked { IsSoFar [] (λ items. items ≡ listens) → ⊥ }
    // Before a fault of its bytes it has the whole answer.
    ensures all_answered { IsAnsweredSoFar (listen_line ∷ []) (λ items. items ≡ listens) }
    ensures none_answered { IsAnsweredSoFar (listen_line ∷ []) (λ items. items ≡ []) → ⊥ }
    ensures half_answered { IsAnsweredSoFar (listen_line ∷ []) (λ items. items ≡ Line 1 ∷ []) → ⊥ }
{}

/// What the clients of seats are told, and what may stand written.
pub fn seats()
    // A client that listened heard a notification, and then nobody asked more.
    ensures told { IsToldOf 1 (Query listen ∷ []) (idle_items ++ Line seat_quit.line ∷ [])
        (map Some (listen_bytes ++ other_bytes)) }
    // The notification left out; a notification that comes behind the `\quit`.
    ensures read_left_out { IsToldOf 1 (Query listen ∷ []) (idle_items ++ Line seat_quit.line ∷ []) (map Some listen_bytes) → ⊥ }
    ensures read_behind { IsToldOf 1 [] (Line seat_quit.line ∷ Read 3 4 (sent_by 1002 ∷ []) ∷ []) []
        → ⊥ }
    // Nobody asked anything: nothing is written, and no part of a frame.
    ensures nothing { RunsSeats 1 [] (λ text. text ≡ []) }
    ensures half_a_frame { RunsSeats 1 [] (λ text. text ≡ 0 ∷ 1 ∷ 0 ∷ []) → ⊥ }
    // Memory did not suffice: nothing was written, or a frame that says so, and no part of it.
    ensures stops { StopsServing 1 [] (λ text. text ≡ []) }
    ensures stops_and_says_so { StopsServing 1 [] (λ text. text ≡ 0 ∷ 0 ∷ 0 ∷ 0 ∷ []) }
    ensures half_of_that { StopsServing 1 [] (λ text. text ≡ 0 ∷ 0 ∷ []) → ⊥ }
{
    told();
    not_told();
}
