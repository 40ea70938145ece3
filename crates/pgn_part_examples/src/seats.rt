//! What a desk, its session and the pass that it tells by may have come to, and beside each what is refused.
ghost use Rattle.std.specs.Prelude.{◌≡◌, ℕ, [], ◌∷◌, List, Option, None, Some};
ghost use Rattle.pgn_hub.specs.declared.known.Known.{Known};
ghost use Rattle.pgn_hub.specs.Shape.{Shape};
ghost use Rattle.pgn_outlet.specs.declared.hand.Hand.{Hand};
ghost use Rattle.pgn_outlet.specs.declared.outlet.Outlet.{Outlet};
ghost use Rattle.pgn_outlet.specs.Cames.{what_of};
ghost use Rattle.pgn_outlet.specs.Passes.{knows};
ghost use Rattle.pgn_seats.specs.declared.desk.Desk.{Desk};
ghost use Rattle.pgn_seats.specs.Desks.{MayBegin};
ghost use Rattle.pgn_requests.specs.declared.settled.Settled.TheVariants.{One};
ghost use Rattle.pgn_requests.specs.Settings.{fresh};
ghost use Rattle.pgn_part_examples.specs.Seats.{begun, begun_items, discarded, discarded_items, for_seat, heard_one, listened, named, names, quit_items, read_items, told};
ghost use Rattle.pgn_seats.specs.Serving.{HasInbox, HasPushedFor, HasQuitBehind, HasServed, HasToldFirst, IsInTurns, Serves, taken};
ghost use Rattle.pgn_session.specs.declared.doing.Doing.TheVariants.{Lines, Over};
ghost use Rattle.pgn_session.specs.declared.session.Session.{Session};
ghost use Rattle.pgn_session.specs.Runs.{IsLawful};
ghost use Rattle.pgn_messages.specs.declared.asked.Ask.{Ask};
ghost use Rattle.pgn_messages.specs.declared.asked.Ask.TheVariants.{Discard, End, Query, Settle};
ghost use Rattle.pgn_messages.specs.declared.asked.Parting.TheVariants.{Plain};
ghost use Rattle.pgn_messages.specs.declared.saying.Saying.{Saying};
ghost use Rattle.pgn_messages.specs.Asks.{discard_line, line_of, seat_quit, unlisten_line};
ghost use Rattle.pgn_examples.specs.Turns.{begin, idle_items, listen, notify};
ghost use Rattle.pgn_messages.specs.Sayings.{all_told};
ghost use Rattle.pgn_messages.specs.Turns.{Turn, Settles, asks_of};

/// A session's script and trace in turns.
pub fn in_turns()
    ensures heard { (s : Session ℕ) → s.section.lines ≡ line_of listen ∷ seat_quit ∷ [] → s.items.items ≡ idle_items → IsInTurns s (listened ∷ heard_one ∷ []) }
    // What is settled between two queries has no line and no item.
    ensures settled { (s : Session ℕ) → s.section.lines ≡ line_of listen ∷ line_of begin ∷ seat_quit ∷ [] → s.items.items ≡ begun_items → IsInTurns s (listened ∷ Settles One ∷ begun ∷ []) }
    // `DISCARD ALL` in a block has two.
    ensures discarded { (s : Session ℕ) → s.section.lines ≡ line_of listen ∷ line_of begin ∷ discard_line 3 ∷ unlisten_line 4 ∷ seat_quit ∷ [] → s.items.items ≡ discarded_items
        → IsInTurns s (listened ∷ begun ∷ discarded ∷ []) }
    // A query whose line stands in no turn.
    ensures skipped { (s : Session ℕ) (turns : List Turn) → s.section.lines ≡ line_of listen ∷ line_of notify ∷ seat_quit ∷ [] → asks_of turns ≡ Query listen ∷ [] → IsInTurns s turns → ⊥ }
    // A script without its `\quit`.
    ensures no_quit { (s : Session ℕ) (turns : List Turn) → s.section.lines ≡ line_of listen ∷ [] → asks_of turns ≡ Query listen ∷ [] → IsInTurns s turns → ⊥ }
    // A line of what is settled.
    ensures lined { (s : Session ℕ) (turns : List Turn) → s.section.lines ≡ line_of listen ∷ seat_quit ∷ [] → asks_of turns ≡ Settle One ∷ [] → IsInTurns s turns → ⊥ }
    // `DISCARD ALL` that leaves the listening.
    ensures listens_on { (s : Session ℕ) (turns : List Turn) → s.section.lines ≡ discard_line 1 ∷ seat_quit ∷ [] → asks_of turns ≡ Discard 1 ∷ [] → IsInTurns s turns → ⊥ }
    // A read that is in no turn.
    ensures left_out { (s : Session ℕ) → s.items.items ≡ idle_items → IsInTurns s (listened ∷ []) → ⊥ }
{}

/// A session that has quit.
pub fn quits()
    ensures met { (s : Session ℕ) → s.section.lines ≡ line_of listen ∷ seat_quit ∷ [] → s.items.items ≡ quit_items → HasQuitBehind s (listened ∷ []) }
    // Something is read behind the `\quit`.
    ensures reads_behind { (s : Session ℕ) → s.items.items ≡ read_items → HasQuitBehind s [] → ⊥ }
    // It is not done.
    ensures goes_on { (s : Session ℕ) → s.items.items ≡ idle_items → HasQuitBehind s (listened ∷ heard_one ∷ []) → ⊥ }
{}

/// For whom a pass has pushed.
pub fn pushed()
    ensures met { (saying : Saying) → HasPushedFor 1 (told []) (told (for_seat 1 saying ∷ [])) }
    // Under another seat's number.
    ensures misnamed { (saying : Saying) → HasPushedFor 1 (told []) (told (for_seat 2 saying ∷ [])) → ⊥ }
    // What another seat was told is not there any more.
    ensures lost { (saying : Saying) → HasPushedFor 1 (told (for_seat 2 saying ∷ [])) (told []) → ⊥ }
{}

/// A desk that serves.
pub fn serves()
    // One that may begin does, where nothing was told.
    ensures begins { (shape : Shape) (known : ℕ → Known) (inboxes : List (Outlet (Option Ask))) (desk : Desk ℕ) (tells : Hand Saying) → MayBegin (λ pass. Unit {0}) shape known inboxes desk → tells.sent ≡ []
        → Serves (λ pass. Unit {0}) shape known inboxes desk tells }
    // A line that nobody asked for.
    ensures not_asked { (shape : Shape) (known : ℕ → Known) (inboxes : List (Outlet (Option Ask))) (desk : Desk ℕ) (tells : Hand Saying) → taken desk.session.section.no (knows desk.asks) ≡ []
        → desk.session.section.lines ≡ line_of listen ∷ seat_quit ∷ [] → Serves (λ pass. Unit {0}) shape known inboxes desk tells → ⊥ }
    // A line that notifies, and was not counted.
    ensures uncounted { (shape : Shape) (known : ℕ → Known) (inboxes : List (Outlet (Option Ask))) (desk : Desk ℕ) (tells : Hand Saying) → desk.notes ≡ 0 → desk.session.section.lines ≡ line_of notify ∷ seat_quit ∷ []
        → Serves (λ pass. Unit {0}) shape known inboxes desk tells → ⊥ }
    // Its client has a name that none has set.
    ensures unset { (shape : Shape) (known : ℕ → Known) (inboxes : List (Outlet (Option Ask))) (desk : Desk ℕ) (tells : Hand Saying) → taken desk.session.section.no (knows desk.asks) ≡ [] → desk.settings ≡ named
        → Serves (λ pass. Unit {0}) shape known inboxes desk tells → ⊥ }
    // It has that of the client before it.
    ensures inherited { (shape : Shape) (known : ℕ → Known) (inboxes : List (Outlet (Option Ask))) (desk : Desk ℕ) (tells : Hand Saying) → taken desk.session.section.no (knows desk.asks) ≡ Some (Settle names) ∷ Some (End 1 Plain) ∷ []
        → desk.settings ≡ named → Serves (λ pass. Unit {0}) shape known inboxes desk tells → ⊥ }
    // It has lost its name.
    ensures lost { (shape : Shape) (known : ℕ → Known) (inboxes : List (Outlet (Option Ask))) (desk : Desk ℕ) (tells : Hand Saying) → taken desk.session.section.no (knows desk.asks) ≡ Some (Settle names) ∷ []
        → desk.settings ≡ fresh → Serves (λ pass. Unit {0}) shape known inboxes desk tells → ⊥ }
    // Its session has quit.
    ensures over { (shape : Shape) (known : ℕ → Known) (inboxes : List (Outlet (Option Ask))) (desk : Desk ℕ) (tells : Hand Saying) → desk.session.doing ≡ Over
        → Serves (λ pass. Unit {0}) shape known inboxes desk tells → ⊥ }
{}

/// A desk that has served.
pub fn served()
    // A query was skipped.
    ensures skipped { (shape : Shape) (known : ℕ → Known) (inboxes : List (Outlet (Option Ask))) (desk : Desk ℕ) (tells : Hand Saying) → taken desk.session.section.no (knows desk.asks) ≡ Some (Query listen) ∷ None ∷ []
        → desk.session.section.lines ≡ seat_quit ∷ [] → HasServed (λ pass. Unit {0}) shape known inboxes desk tells → ⊥ }
    // The end of a client was not told.
    ensures untold { (shape : Shape) (known : ℕ → Known) (inboxes : List (Outlet (Option Ask))) (desk : Desk ℕ) (tells : Hand Saying) → taken desk.session.section.no (knows desk.asks) ≡ Some (End 1 Plain) ∷ None ∷ []
        → what_of desk.session.section.no tells.sent ≡ [] → HasServed (λ pass. Unit {0}) shape known inboxes desk tells → ⊥ }
    // What was settled was not told.
    ensures unsettled { (shape : Shape) (known : ℕ → Known) (inboxes : List (Outlet (Option Ask))) (desk : Desk ℕ) (tells : Hand Saying) → taken desk.session.section.no (knows desk.asks) ≡ Some (Settle One) ∷ None ∷ []
        → what_of desk.session.section.no tells.sent ≡ [] → HasServed (λ pass. Unit {0}) shape known inboxes desk tells → ⊥ }
    // More was asked behind what is the last.
    ensures asked_behind { (shape : Shape) (known : ℕ → Known) (inboxes : List (Outlet (Option Ask))) (desk : Desk ℕ) (tells : Hand Saying) → taken desk.session.section.no (knows desk.asks) ≡ None ∷ Some (Query listen) ∷ []
        → HasServed (λ pass. Unit {0}) shape known inboxes desk tells → ⊥ }
    // Its session has not quit.
    ensures goes_on { (shape : Shape) (known : ℕ → Known) (inboxes : List (Outlet (Option Ask))) (desk : Desk ℕ) (tells : Hand Saying) → desk.session.doing ≡ Lines
        → HasServed (λ pass. Unit {0}) shape known inboxes desk tells → ⊥ }
{}

/// A desk that has told the first of what it did.
pub fn told_first()
    ensures nothing { (shape : Shape) (inboxes : List (Outlet (Option Ask))) (desk : Desk ℕ) (tells : Hand Saying) → IsLawful shape desk.session → HasInbox inboxes desk → what_of desk.session.section.no tells.sent ≡ []
        → HasToldFirst shape inboxes desk tells }
    // An end was told that nobody asked for.
    ensures not_asked { (shape : Shape) (inboxes : List (Outlet (Option Ask))) (desk : Desk ℕ) (tells : Hand Saying) → taken desk.session.section.no (knows desk.asks) ≡ [] → all_told (what_of desk.session.section.no tells.sent) ≡ None ∷ []
        → HasToldFirst shape inboxes desk tells → ⊥ }
{}
