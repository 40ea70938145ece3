use crossbeam_utils::CachePadded;
use pgn_language::Section;
use pgn_model::Items;
use pgn_outlet::{Bell, Outlet};
use std::alloc::Global;
use std::sync::Wait;
use std::sync::atomic::{AtomicU64, Ordering};

// What the sessions of a live run and their writer share: the hub, the queue by which they tell what they record, the bell and the end word
// beside it, and the sections, where the text of a script line is found.
#[derive(Drop)]
pub(crate) struct Live<'a, R, H> {
    pub(crate) rt: &'a R,
    pub(crate) alloc: Global,
    pub(crate) hub: &'a H,
    pub(crate) outlet: &'a Outlet<Items>,
    pub(crate) relay: &'a Relay,
    pub(crate) sections: &'a [Section],
}

// What sessions and their writer tell each other by beside the queue: a bell behind each push, and a word that is set once all sessions are
// done. No clause sees any of it.
#[derive(Drop)]
pub(crate) struct Relay {
    bell: Bell,
    end: CachePadded<AtomicU64>,
}

impl Relay {
    // One by which nothing was told.
    pub(crate) fn new() -> Relay {
        Relay {
            bell: Bell::new(),
            end: CachePadded::new(AtomicU64::new(0)),
        }
    }

    // Something was pushed.
    pub(crate) fn tell(&self) {
        self.bell.ring();
    }

    // All sessions are done.
    pub(crate) fn end(&self) {
        self.end.store(1, Ordering::SeqCst);
        self.bell.ring();
    }

    pub(crate) fn has_ended(&self) -> bool {
        self.end.load(Ordering::SeqCst) != 0
    }

    // The writer is about to doze: it looks once more at the queue and at the end word before it does.
    pub(crate) fn arm(&self) {
        self.bell.arm();
    }

    // Sleeps until something was pushed, or all sessions are done, since it was armed.
    pub(crate) fn doze<R: Wait>(&self, rt: &R) {
        self.bell.doze(rt);
    }
}
