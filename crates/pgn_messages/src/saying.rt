/// What a client of a seat is told at once: these bytes, and, where it ends there, its end behind them.
pub struct Saying {
    pub bytes: Vec<u8>,
    pub ends: bool,
}

// Written out, so that this crate proves it once for all that drop one.
impl Drop for Saying {
    fn drop(self) {
        let Saying { bytes: _, ends: _ } = self;
    }
}
