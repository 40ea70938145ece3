use pgn_base::{Actions, Notes, Refusal, Tag, Warning};

/// What a command comes to, as the session has to answer it.
#[derive(Drop)]
pub enum Effect {
    /// Nothing is answered.
    Nothing,
    /// The tag, and the warning before it where there is one.
    Reply {
        tag: Tag,
        warning: Option<Warning>,
    },
    /// The refusal.
    Refuse {
        refusal: Refusal,
    },
    /// The transaction commits: its actions take effect and its notifications are sent, each in order; then the tag is answered.
    Commit {
        actions: Actions,
        notes: Notes,
        tag: Tag,
    },
    /// The rows that the session knows or asks for, and SELECT with their number.
    Query {
        kind: Kind,
    },
}

/// What is asked for: the channels that the session listens to, or how full the queue is.
#[derive(Clone, Copy)]
pub enum Kind {
    ListeningChannels,
    QueueUsage,
}
