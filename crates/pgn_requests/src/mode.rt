/// Where a byte of a query's text stands.
#[derive(Clone, Copy)]
pub enum Mode {
    /// Outside of quotes and comments.
    Outside,
    /// There, after a `/`, which is held back.
    Slash,
    /// There, after a `-`, which is held back.
    Dash,
    /// In a literal.
    Single,
    /// In a quoted identifier.
    Double,
    /// In a comment that stands in so many others.
    Comment { depth: u32 },
    /// There, after a `*`.
    Star { depth: u32 },
    /// There, after a `/`.
    Open { depth: u32 },
    /// In a comment to the end of the line.
    Rest,
}
