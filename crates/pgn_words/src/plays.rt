//! What each step on the words tells.
ghost use Rattle.pgn_words.specs.Told.{TellsLock, TellsDrop, TellsHead, TellsStop, TellsDraw, TellsCellStore, TellsHeadStore, TellsStatusSet, TellsFinStore, TellsFin, TellsStatus, after_making, made_by, noted, joined, spent_view};
ghost use Rattle.pgn_words.specs.Listening.{TellsJoining, TellsBase, TellsRegistered, TellsBegun, TellsShown, TellsShownCell, TellsForwarded, TellsLeft};
ghost use Rattle.pgn_words.specs.Looking.{TellsFirstLook, TellsTail, TellsTailStore, TellsSecondLook, TellsStopStore};
ghost use Rattle.pgn_words.specs.Waking.{TellsTaken, TellsWakeLook, TellsWakeSet, TellsRaised, TellsLooked};
ghost use Rattle.pgn_words.specs.Interests.{TellsInterested, TellsInterest};
ghost use Rattle.pgn_words.specs.Closing.{taken_in};

use crate::view::View;
use atomic_table::{Join, Play, Split};
use std::marker::{Brand, PhantomData};

pub(crate) struct TryLock;

impl Play<u8, View> for TryLock {
    ghost then = { TellsLock };
}

pub(crate) struct DropLock;

impl Play<u8, View> for DropLock {
    ghost then = { TellsDrop };
}

pub(crate) struct LoadHead;

impl Play<u8, View> for LoadHead {
    ghost then = { TellsHead };
}

pub(crate) struct LoadStop;

impl Play<u8, View> for LoadStop {
    ghost then = { TellsStop };
}

pub(crate) struct StoreCell;

impl Play<u8, View> for StoreCell {
    ghost then = { TellsCellStore };
}

pub(crate) struct StoreHead;

impl Play<u8, View> for StoreHead {
    ghost then = { TellsHeadStore };
}

// The notifications for which a number is drawn. They are no operand of the step, so the caller gives them to the proof.
pub(crate) trait Given {
    ghost use Rattle.std.specs.Prelude.{List};
    ghost use Rattle.pgn_base.specs.declared.note.Note.{Note};

    ghost notes: { List Note };
}

impl Given for Brand {
    ghost use Rattle.std.specs.Prelude.{[]};

    ghost notes = { [] };
}

pub(crate) struct DrawXid<G> {
    given: PhantomData<G>,
}

impl<G: Given> Play<u8, View> for DrawXid<G> {
    ghost then = { TellsDraw G.notes };
}

pub(crate) struct MakePass;

impl Split<View> for MakePass {
    ghost left = { after_making };

    ghost right = { made_by };
}

// The transaction as it ends. It is no operand of the step, so the caller gives it to the proof.
pub(crate) trait Ending {
    ghost use Rattle.pgn_journal.specs.declared.tx.Tx.{Tx};

    ghost tx: { Tx };
}

impl Ending for Brand {
    ghost use Rattle.pgn_words.specs.Views.{no_tx};

    ghost tx = { no_tx };
}

pub(crate) struct SetStatus<G> {
    ending: PhantomData<G>,
}

impl<G: Ending> Play<u8, View> for SetStatus<G> {
    ghost then = { TellsStatusSet G.tx };
}

pub(crate) struct StoreFin;

impl Play<u8, View> for StoreFin {
    ghost then = { TellsFinStore };
}

pub(crate) struct LoadFin;

impl Play<u8, View> for LoadFin {
    ghost then = { TellsFin };
}

pub(crate) struct LoadStatus;

impl Play<u8, View> for LoadStatus {
    ghost then = { TellsStatus };
}

pub(crate) struct MakeNote;

impl Split<View> for MakeNote {
    ghost left = { λ v. v };

    ghost right = { noted };
}

pub(crate) struct JoinNote;

impl Join<View> for JoinNote {
    ghost both = { joined };

    ghost spent = { spent_view };
}

pub(crate) struct MarkJoining;

impl Play<u8, View> for MarkJoining {
    ghost then = { TellsJoining };
}

pub(crate) struct LoadBase;

impl Play<u8, View> for LoadBase {
    ghost then = { TellsBase };
}

pub(crate) struct StoreValid;

impl Play<u8, View> for StoreValid {
    ghost then = { TellsRegistered };
}

pub(crate) struct BeginWalk;

impl Play<u8, View> for BeginWalk {
    ghost then = { TellsBegun };
}

pub(crate) struct ShowHead;

impl Play<u8, View> for ShowHead {
    ghost then = { TellsShown };
}

pub(crate) struct LoadShown;

impl Play<u8, View> for LoadShown {
    ghost then = { TellsShownCell };
}

pub(crate) struct StoreForward;

impl Play<u8, View> for StoreForward {
    ghost then = { TellsForwarded };
}

pub(crate) struct StoreOut;

impl Play<u8, View> for StoreOut {
    ghost then = { TellsLeft };
}

pub(crate) struct FirstLook;

impl Play<u8, View> for FirstLook {
    ghost then = { TellsFirstLook };
}

pub(crate) struct LoadTail;

impl Play<u8, View> for LoadTail {
    ghost then = { TellsTail };
}

pub(crate) struct StoreTail;

impl Play<u8, View> for StoreTail {
    ghost then = { TellsTailStore };
}

pub(crate) struct SecondLook;

impl Play<u8, View> for SecondLook {
    ghost then = { TellsSecondLook };
}

pub(crate) struct StoreStop;

impl Play<u8, View> for StoreStop {
    ghost then = { TellsStopStore };
}

pub(crate) struct TakeWake;

impl Play<u8, View> for TakeWake {
    ghost then = { TellsTaken };
}

pub(crate) struct WakeLook;

impl Play<u8, View> for WakeLook {
    ghost then = { TellsWakeLook };
}

pub(crate) struct SetWake;

impl Play<u8, View> for SetWake {
    ghost then = { TellsWakeSet };
}

// The channels of a listener. They are no operand of the step, so the caller gives them to the proof.
pub(crate) trait Channels {
    ghost use Rattle.std.specs.Prelude.{List, ℕ};

    ghost channels: { List (List ℕ) };
}

impl Channels for Brand {
    ghost use Rattle.std.specs.Prelude.{[]};

    ghost channels = { [] };
}

pub(crate) struct StoreInterest<G> {
    told: PhantomData<G>,
}

impl<G: Channels> Play<u8, View> for StoreInterest<G> {
    ghost then = { TellsInterested G.channels };
}

pub(crate) struct LoadInterest;

impl Play<u8, View> for LoadInterest {
    ghost then = { TellsInterest };
}

pub(crate) struct RaiseFlag;

impl Play<u8, View> for RaiseFlag {
    ghost then = { TellsRaised };
}

pub(crate) struct LookFlag;

impl Play<u8, View> for LookFlag {
    ghost then = { TellsLooked };
}

pub(crate) struct JoinPass;

impl Join<View> for JoinPass {
    ghost both = { taken_in };

    ghost spent = { spent_view };
}
