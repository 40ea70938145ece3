ghost use Rattle.std.specs.Prelude.{◌≡◌};
ghost use Rattle.pgn_hub.specs.Shape.{IsShape};
ghost use Rattle.pgn_words.specs.Words.{word_count, room_of, cells_at as first_cell, wakes_at as first_wake, interests_at as first_interest, flags_at as first_flag, statuses_at as first_status};

use crate::view::View;
use atomic_table::{Seat, Table, TableRule};
use pgn_base::{DbOid, SessionNo, Xid};
use pgn_hub::Setup;
use pgn_layout::Pos;
use std::alloc::Global;

/// The rule that every step keeps.
pub struct Rule;

impl TableRule<u8, View, Setup> for Rule {
    ghost use Rattle.pgn_words.specs.Rule.{Lawful};
    ghost use Rattle.pgn_words.specs.Views.{first_view};

    ghost holds = { Lawful };

    ghost first = { first_view };
}

/// The words, and where those begin of which there are many.
#[derive(Drop)]
pub struct WordQueue {
    pub(crate) table: Table<u8, View, Setup, Rule, Global>,
    pub(crate) wakes_at: usize,
    pub(crate) interests_at: usize,
    pub(crate) flags_at: usize,
    pub(crate) statuses_at: usize,
    pub(crate) cells_at: usize,
    // How many words the cells have, and the number after the last one.
    pub(crate) room: u64,
    pub(crate) end: usize,
    ghost shaped: { IsShape table.shared.key },
    ghost slotless: { table.shared.table_id.slots ≡ 0 },
    ghost counted: { table.shared.table_id.words ≡ word_count table.shared.key },
    ghost wakes_begin: { wakes_at ≡ first_wake table.shared.key },
    ghost interests_begin: { interests_at ≡ first_interest table.shared.key },
    ghost flags_begin: { flags_at ≡ first_flag table.shared.key },
    ghost statuses_begin: { statuses_at ≡ first_status table.shared.key },
    ghost begins: { cells_at ≡ first_cell table.shared.key },
    ghost roomy: { room ≡ room_of table.shared.key },
    ghost ends: { end ≡ word_count table.shared.key },
}

/// A session's right to step on the words, and what it knows of itself.
#[derive(Drop)]
pub struct WordPass {
    pub(crate) seat: Seat<u8, View>,
    pub(crate) session: SessionNo,
    pub(crate) db: DbOid,
    pub(crate) mark: Option<Xid>,
    pub(crate) told: Xid,
    pub(crate) notes_left: u32,
    // While it signals, the number after that of its transaction.
    pub(crate) ended: Option<Xid>,
    // Once it is based, its mark, and the mark's place.
    pub(crate) base: Xid,
    pub(crate) at: Pos,
    pub(crate) owes: bool,
    ghost session_is: { session ≡ seat.me.0.known.session },
    ghost db_is: { db ≡ seat.me.0.known.db },
    ghost mark_is: { mark ≡ seat.me.0.known.mark },
    ghost told_is: { told ≡ seat.me.0.known.told },
    ghost ended_is: { ended ≡ seat.me.0.ended },
    ghost left_is: { notes_left ≡ seat.me.0.known.notes_left },
    ghost base_is: { base ≡ seat.me.0.post.mark },
    ghost at_is: { at ≡ seat.me.0.post.at },
    ghost owes_is: { owes ≡ seat.me.0.known.owes },
}

/// What a pass knew of the journal and was told, on its way to another pass.
#[derive(Drop)]
pub struct WordNote {
    pub(crate) seat: Seat<u8, View>,
    pub(crate) told: Xid,
    ghost told_is: { told ≡ seat.me.0.known.told },
}
