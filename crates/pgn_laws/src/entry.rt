ghost use Rattle.pgn_entry.specs.Laws.{ReadsAsOne, EntryReadsBack, FillerReadsBack};
ghost use Rattle.pgn_entry.specs.Reading.{Reading, ReadsAs};

use pgn_base::Format;
use pgn_entry::read_entry;

/// In each format any bytes read as one thing, an entry, a filler or a fault, and as no other.
pub fn one_answer(format: Format, bytes: &[u8])
    ensures some { (answer : Reading) × ReadsAs format bytes.now answer }
    ensures no_other { ReadsAsOne }
{
    let _answer = read_entry(format, bytes);
}

/// Whatever follows an entry or a filler, its fields are read back.
pub fn reads_back()
    ensures entry { EntryReadsBack }
    ensures filler { FillerReadsBack }
{}
