/// The values of the options that are given, and whether `--live` is.
#[derive(Clone, Copy)]
pub(crate) struct Options {
    pub(crate) pages: Option<u32>,
    pub(crate) patience: Option<u64>,
    pub(crate) format: Option<u64>,
    pub(crate) seats: Option<u32>,
    pub(crate) live: bool,
}
