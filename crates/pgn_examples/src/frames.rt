ghost use Rattle.std.specs.Prelude.{◌≡◌, [], ◌∷◌, ◌++◌, map, take, List, None, Option, Some};
ghost use Rattle.pgn_base.specs.declared.limits.TheConstants.{NOTE_LINES_MAX};
ghost use Rattle.pgn_examples.specs.Queries.{asks_listen, asks_notify, asks_two_ends, terminates};
ghost use Rattle.pgn_requests.specs.declared.settled.Settled.TheVariants.{One};
ghost use Rattle.pgn_messages.specs.declared.asked.Ask.{Ask};
ghost use Rattle.pgn_messages.specs.declared.asked.Ask.TheVariants.{Discard, End, Query, Settle};
ghost use Rattle.pgn_messages.specs.declared.asked.Parting.TheVariants.{Extended, Plain, Refused, Spent};
ghost use Rattle.pgn_frames.specs.declared.frame_fault.FrameFault.{FrameFault};
ghost use Rattle.pgn_frames.specs.declared.frame_fault.FrameFault.TheVariants.{CutFrame, NoSeat};
ghost use Rattle.pgn_frames.specs.Frames.{Frame, FramesAre, signs_of};
ghost use Rattle.pgn_frames.specs.Clients.{SeatAsks, first_tally};
ghost use Rattle.pgn_examples.specs.Frames.{asks_discard, asks_one, cut_frame, frame_of, frames_of_three, garbled_at, listen_at, notify_at, of_seat_0, of_seat_3, parses, three_frames, too_short, two_asks, two_clients};

/// Inputs and their frames, where there are two seats.
pub fn frames()
    ensures three { FramesAre 2 0 three_frames frames_of_three None }
    ensures no_byte { FramesAre 2 0 [] [] None }
    // Seats are numbered from 1 to the greatest.
    ensures seat_above { FramesAre 2 0 of_seat_3 [] (Some (NoSeat 0)) }
    ensures seat_below { FramesAre 2 0 of_seat_0 [] (Some (NoSeat 0)) }
    // The input may end between frames alone.
    ensures cut_body { FramesAre 2 0 cut_frame [] (Some (CutFrame 0)) }
    ensures cut_head { FramesAre 2 0 (0 ∷ 2 ∷ 0 ∷ 0 ∷ 0 ∷ 1 ∷ []) (frame_of 2 [] ∷ []) (Some (CutFrame 4)) }
    ensures cut_behind { FramesAre 2 0 (0 ∷ 1 ∷ 0 ∷ 2 ∷ 81 ∷ 0 ∷ 0 ∷ []) (frame_of 1 (81 ∷ 0 ∷ []) ∷ []) (Some (CutFrame 6)) }
{}

/// Frames that these inputs have not.
pub fn refused()
    // Another seat's number.
    ensures other_seat { (fault : Option FrameFault) → FramesAre 2 0 three_frames (frame_of 2 (81 ∷ 0 ∷ []) ∷ frame_of 2 [] ∷ frame_of 1 (88 ∷ []) ∷ []) fault → ⊥ }
    // A frame left out.
    ensures left_out { (fault : Option FrameFault) → FramesAre 2 0 three_frames (frame_of 1 (81 ∷ 0 ∷ []) ∷ frame_of 1 (88 ∷ []) ∷ []) fault → ⊥ }
    // A cut frame for the end.
    ensures as_the_end { (frames : List Frame) → FramesAre 2 0 cut_frame frames None → ⊥ }
{}

/// The signs of each seat.
pub fn signs()
    ensures of_one { signs_of 1 frames_of_three ≡ map Some (81 ∷ 0 ∷ 88 ∷ []) }
    ensures of_two { signs_of 2 frames_of_three ≡ None ∷ [] }
    ensures of_none { signs_of 3 frames_of_three ≡ [] }
{}

/// What a seat is asked.
pub fn asked()
    ensures one_query { SeatAsks (first_tally NOTE_LINES_MAX) (map Some asks_listen) (Query (listen_at 1) ∷ []) }
    // The lines of the next client go on behind those that set the seat back.
    ensures two_of_them { SeatAsks (first_tally NOTE_LINES_MAX) two_clients two_asks }
    // A Terminate is an end; behind it nothing is looked at up to the end that the shim sends.
    ensures by_a_terminate { SeatAsks (first_tally NOTE_LINES_MAX) (map Some (terminates ++ asks_listen)) (End 1 Plain ∷ []) }
    ensures behind_its_end { SeatAsks (first_tally NOTE_LINES_MAX) (map Some (terminates ++ asks_listen) ++ None ∷ map Some asks_listen) (End 1 Plain ∷ Query (listen_at 3) ∷ []) }
    // So is a wrong length, a message of the extended protocol, and a client that ends without a byte.
    ensures by_a_length { SeatAsks (first_tally NOTE_LINES_MAX) (map Some too_short) (End 1 Refused ∷ []) }
    ensures by_a_parse { SeatAsks (first_tally NOTE_LINES_MAX) (map Some parses) (End 1 Extended ∷ []) }
    ensures no_byte { SeatAsks (first_tally NOTE_LINES_MAX) (None ∷ []) (End 1 Plain ∷ []) }
    // A Query whose body is garbled is none: the client goes on.
    ensures garbled { SeatAsks (first_tally NOTE_LINES_MAX) (map Some (asks_two_ends ++ asks_listen)) (Query (garbled_at 1) ∷ Query (listen_at 2) ∷ []) }
    // What is settled has no line, and `DISCARD ALL` has two.
    ensures no_line { SeatAsks (first_tally NOTE_LINES_MAX) (map Some (asks_one ++ asks_listen)) (Settle One ∷ Query (listen_at 1) ∷ []) }
    ensures two_lines { SeatAsks (first_tally NOTE_LINES_MAX) (map Some (asks_discard ++ asks_listen)) (Discard 1 ∷ Query (listen_at 3) ∷ []) }
    // As many may notify as may of one client, all clients together.
    ensures notes_go_on { SeatAsks (first_tally 1) (map Some asks_notify ++ None ∷ map Some asks_notify) (Query (notify_at 1) ∷ End 2 Plain ∷ End 4 Spent ∷ []) }
    // A message that the client's end cuts is a fault. One that the end of the input cuts is not asked.
    ensures cut_by_its_end { SeatAsks (first_tally NOTE_LINES_MAX) (map Some (take 7 asks_listen) ++ None ∷ []) (End 1 Refused ∷ []) }
    ensures cut { SeatAsks (first_tally NOTE_LINES_MAX) (map Some (take 7 asks_listen)) [] }
{}

/// What a seat is not asked.
pub fn not_asked()
    // A query left out, or the same twice.
    ensures query_left_out { SeatAsks (first_tally NOTE_LINES_MAX) two_clients (Query (listen_at 1) ∷ End 2 Plain ∷ []) → ⊥ }
    // Numbers that begin anew.
    ensures numbers_anew { SeatAsks (first_tally NOTE_LINES_MAX) two_clients (Query (listen_at 1) ∷ End 2 Plain ∷ Query (listen_at 1) ∷ []) → ⊥ }
    // A fault as a plain end, and a message of the extended protocol as another fault.
    ensures fault_as_plain { SeatAsks (first_tally NOTE_LINES_MAX) (map Some too_short) (End 1 Plain ∷ []) → ⊥ }
    ensures parse_as_a_fault { SeatAsks (first_tally NOTE_LINES_MAX) (map Some parses) (End 1 Refused ∷ []) → ⊥ }
    // A query behind a Terminate.
    ensures past_a_terminate { (asks : List Ask) → SeatAsks (first_tally NOTE_LINES_MAX) (map Some (terminates ++ asks_listen)) (Query (listen_at 1) ∷ asks) → ⊥ }
    // A garbled Query as the client's end, and what is settled with a line of its own.
    ensures garbled_as_an_end { SeatAsks (first_tally NOTE_LINES_MAX) (map Some (asks_two_ends ++ asks_listen)) (End 1 Refused ∷ []) → ⊥ }
    ensures settled_with_a_line { SeatAsks (first_tally NOTE_LINES_MAX) (map Some (asks_one ++ asks_listen)) (Settle One ∷ Query (listen_at 2) ∷ []) → ⊥ }
{}
