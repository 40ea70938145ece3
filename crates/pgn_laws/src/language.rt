ghost use Rattle.pgn_language.specs.laws.Grammar.{BeginsComputes, PrefixBegins, WrongFitsNowhere, FollowersTell, FollowersDone, ReadingComputes, OneReading};
ghost use Rattle.pgn_language.specs.laws.Commands.{ReadingsAreValid};
ghost use Rattle.pgn_language.specs.laws.Tokens.{QuotesTell, TokensStand, TokensCover, OneCover, CutIsLongest, CutIsName};
ghost use Rattle.pgn_language.specs.laws.Inputs.{LinesAreCut, TextsAreTrimmed, PartsAreCut, BlankReadsEmpty, CommandsHaveOneLine, InputReadingComputes, OneInputReading, ReadingsAreSound};

/// The tokens of a line.
pub fn tokens()
    // A quoted text ends at the first quote that is not written twice, and is what stands before it with each quote once.
    ensures quotes_tell { QuotesTell }
    // A cut name is the longest prefix of whole characters that is short enough.
    ensures cut_is_longest { CutIsLongest }
    // What a text is cut to is a name, if it has a character and no zero byte.
    ensures cut_is_name { CutIsName }
    // Each token of a text stands in it where it is said to begin.
    ensures tokens_stand { TokensStand }
    // The tokens of a text cover it: nothing but blanks stands before them and between them, and nothing but blanks and a comment after
    // them. Words, numbers and quoted texts are as long as they can be. After what is no token anything may stand.
    ensures tokens_cover { TokensCover }
    // No other tokens cover it, so that no other order of reading gives others.
    ensures one_cover { OneCover }
{}

/// The table of commands, and what a line reads as.
pub fn grammar()
    // Tokens begin a form of the table of commands exactly where they fit the first slots of one.
    ensures begins_computes { BeginsComputes }
    // A prefix of what begins a form of the table begins one, so that a line goes wrong at one byte.
    ensures prefix_begins { PrefixBegins }
    // What is no token fits nowhere, whatever follows it.
    ensures wrong_fits_nowhere { WrongFitsNowhere }
    // Tokens begin a form of the table exactly where something may follow them, be it nothing more.
    ensures followers_tell { FollowersTell }
    // Tokens are a form of the table exactly where nothing more may follow them.
    ensures followers_done { FollowersDone }
    // What a line reads as can be computed.
    ensures reading_computes { ReadingComputes }
    // A line has exactly one reading.
    ensures one_reading { OneReading }
    // What a line of UTF-8 without a zero byte reads as is valid: each name is one, and a notification can be sent. So the channel of
    // NOTIFY is never empty, and no name is cut in the middle of a character.
    ensures readings_are_valid { ReadingsAreValid }
{}

/// The lines of an input, their texts and their parts.
pub fn lines()
    // A line ends before its LF, and the last one where the input ends.
    ensures lines_are_cut { LinesAreCut }
    // The text of a line is what stands between the blanks at its ends.
    ensures texts_are_trimmed { TextsAreTrimmed }
    // Spaces and tabs, one or more, separate the parts of a meta line.
    ensures parts_are_cut { PartsAreCut }
    // A line is blank exactly where its text reads as the empty command.
    ensures blank_reads_empty { BlankReadsEmpty }
{}

/// What an input reads as.
pub fn inputs()
    // What an input reads as can be computed.
    ensures input_reading_computes { InputReadingComputes }
    // An input has exactly one reading: a scenario or a fault.
    ensures one_input_reading { OneInputReading }
    // A line without a line feed reads as a command without one.
    ensures commands_have_one_line { CommandsHaveOneLine }
    // Only sound scenarios are read.
    ensures readings_are_sound { ReadingsAreSound }
{}
