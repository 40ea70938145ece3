use crate::WireFault;

/// What comes next of a client's bytes.
#[derive(Clone, Copy)]
pub enum Coming {
    /// A Terminate, or no byte.
    End,
    /// A Query.
    Query,
    Fault(WireFault),
}
