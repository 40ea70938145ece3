/// Where a reader of an output stands, between two of its lines.
#[derive(Clone, Copy)]
pub enum Place {
    /// Before the head of the journal.
    Start,
    /// So many entries of the journal are left, at least one, and the next has this number.
    Entries {
        left: u32,
        next: u32,
    },
    /// So many notifications of an entry are left, at least one, and then so many entries, of which the first has this number.
    Notes {
        notes: u32,
        left: u32,
        next: u32,
    },
    /// Before the head of the section in this place, from 0; or behind the last section.
    Sections {
        section: usize,
    },
    /// In the section in this place; so many of its script lines have begun.
    Inside {
        section: usize,
        begun: usize,
        within: Within,
    },
}

/// What stands before a line of a section.
#[derive(Clone, Copy)]
pub enum Within {
    /// Nothing that goes on.
    Free,
    /// A warning: its tag follows.
    Warned,
    /// Where a usage was measured: its pages follow.
    Measuring,
    /// A read, or a notification that it received: others may follow.
    Receiving,
}
