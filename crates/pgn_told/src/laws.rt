ghost use Rattle.pgn_told.specs.Laws.{ConversationTells, MessagesTell};

/// The messages of a run tell what its client saw, and what the journal has.
pub fn messages_tell()
    // Two legal runs of a client's queries with the same messages: the client saw the same of both, and their journals are the same but for
    // how many notifications of an aborted transaction were queued.
    ensures { MessagesTell }
{}

/// What a client sent and what it was answered tell it the run.
pub fn conversation_tells()
    // Two legal runs of the queries of a client's bytes with the same messages: the client saw the same of both, and their journals are the
    // same but for how many notifications of an aborted transaction were queued.
    ensures { ConversationTells }
{}
