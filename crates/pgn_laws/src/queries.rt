ghost use Rattle.pgn_queries.specs.Laws.{EachHasReading, OneReading};

/// A client's bytes read as one list of queries, with one fault or none, and as no other: what the reader gives is exactly that, however
/// the reads cut the bytes.
pub fn one_reading()
    // Each list of bytes has a reading, from each place on.
    ensures some { EachHasReading }
    // It has no other.
    ensures one { OneReading }
{}
