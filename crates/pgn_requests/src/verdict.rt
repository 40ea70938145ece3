use crate::ShortText;

/// What comes of a value that a client gives a setting.
#[derive(Drop)]
pub enum Verdict {
    /// The setting has this value then.
    Becomes(ShortText),
    /// It can have no such value.
    Invalid,
    /// It cannot be changed.
    Unchangeable,
    /// A server can have it so, and the service cannot.
    Unsupported,
}
