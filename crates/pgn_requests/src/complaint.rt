use crate::ShortText;

/// Why a client's text is refused where that is no syntax error.
#[derive(Clone, Copy)]
pub enum Cause {
    /// No parameter has this name.
    NoSetting,
    /// The parameter cannot have this value.
    BadValue,
    /// The parameter cannot be changed.
    Fixed,
    /// The service does not do this.
    Unsupported,
    /// The text is no UTF-8.
    BadEncoding,
    /// The message does not end with its only zero byte.
    BadMessage,
}

/// A refusal as it is told.
#[derive(Drop)]
pub struct Complaint {
    pub cause: Cause,
    pub text: ShortText,
}

/// How the answer to a query is put.
#[derive(Drop)]
pub enum Wording {
    /// As the session answers it.
    Plain,
    /// The same, for a call of pg_notify past a limit: a server describes its row before it refuses the call.
    Called,
    /// What the session refuses as a syntax error is told as this.
    Refused(Complaint),
}
