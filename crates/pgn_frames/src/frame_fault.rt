/// Why frames are refused. `at` is the offset of the frame's first byte, counted from 0. A head that is there is looked at before the
/// bytes behind it.
#[derive(Clone, Copy)]
pub enum FrameFault {
    /// The input ends inside the frame.
    CutFrame { at: u64 },
    /// Its seat is 0, or above the greatest.
    NoSeat { at: u64 },
}
