ghost use Rattle.pgn_requests.specs.Laws.{EachHasRequest, OneRequest};

/// What a Query's body asks for: the reader gives exactly that.
pub fn one_request()
    // Each body asks for something.
    ensures some { EachHasRequest }
    // It asks for nothing else.
    ensures one { OneRequest }
{}
