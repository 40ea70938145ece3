ghost use Rattle.pgn_messages.specs.Laws.{LineIsPutIn, OneLineBegins, OthersAreSilent, QueryAnswers};

/// How messages grow: each line adds its own.
pub fn growth()
    // A line with a command adds the answer to it, whole, and nothing else.
    ensures query_answers { QueryAnswers }
    // A line without one, as `\quit`, adds nothing.
    ensures others_are_silent { OthersAreSilent }
{}

/// How a script grows, while its last line is still to come.
pub fn growing_script()
    // A line that is put in before the last changes no message.
    ensures line_is_put_in { LineIsPutIn }
    // Where one line was taken and another is still to come, no item behind its own begins a line.
    ensures one_line_begins { OneLineBegins }
{}
