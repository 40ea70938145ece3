use std::alloc::Global;

// What a client is served on.
#[derive(Drop)]
pub(crate) struct Host<'a, H, R> {
    pub(crate) rt: &'a R,
    pub(crate) alloc: Global,
    pub(crate) hub: &'a H,
}
