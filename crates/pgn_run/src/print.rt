/// What is written of a run.
#[derive(Clone, Copy)]
pub enum Print {
    /// The journal, and what each session was answered and received.
    Text,
    /// The five lines of a drill: its seed and how many notifications each session sends, and what was counted.
    Summary { seed: u64, notes: u32 },
}

/// What is shown of a run, and when.
#[derive(Clone, Copy)]
pub enum Shows {
    /// What is asked for, once the run has ended.
    AtEnd(Print),
    /// Each line of each session as it comes, then the journal and where each session ended.
    Live,
}
