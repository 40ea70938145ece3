ghost use Rattle.std.specs.Prelude.{◌≡◌};
ghost use Rattle.pgn_journal.specs.Bytes.{header_bytes, alignment, least_bytes};
ghost use Rattle.pgn_entry.specs.Cells.{pid_place};

use pgn_base::Format;

/// The numbers at the head of an entry take this many bytes.
pub fn header_len(format: Format) -> usize
    ensures { result ≡ header_bytes format }
{
    match format {
        Format::One => 16,
        Format::Two => 24,
    }
}

/// The length of an entry is a multiple of this many bytes.
pub fn length_unit(format: Format) -> usize
    ensures { result ≡ alignment format }
{
    match format {
        Format::One => 4,
        Format::Two => 8,
    }
}

/// The shortest entry has this many bytes.
pub fn least_len(format: Format) -> usize
    ensures { result ≡ least_bytes format }
{
    match format {
        Format::One => 20,
        Format::Two => 32,
    }
}

/// The process number of an entry's sender stands in the cell of this number.
pub fn pid_cell(format: Format) -> usize
    ensures { result ≡ pid_place format }
{
    match format {
        Format::One => 3,
        Format::Two => 4,
    }
}
