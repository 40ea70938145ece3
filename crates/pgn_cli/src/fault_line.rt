ghost use Rattle.std.specs.Prelude.{◌≡◌, ◌++◌, decimal};
ghost use Rattle.pgn_base.specs.Outside.{Writes, HasCause};
ghost use Rattle.pgn_cli.specs.FaultLine.{at_of, at_of_frame, fault_text, line_text, scenario_fault_text};

use itoa::Buffer;
use pgn_base::{Failed, Sink, write_all};
use pgn_frames::FrameFault;
use pgn_language::ScenarioFault;
use pgn_queries::WireFault;
use pgn_run::Status;

/// Writes the one line on standard error of an outcome, and nothing where the run is done. Where it fails, a prefix of the line
/// is written.
pub fn fault_line<K: Sink>(sink: &mut K, status: &Status) -> Result<(), Failed>
    ensures bytes { Writes (K.held sink.old) (K.held sink.new) result (fault_text status.now) }
    ensures cause { HasCause (K.faults sink.old) (K.faults sink.new) result }
{
    match line_of(status) {
        Line::Text(text) => write_all(sink, text),
        Line::Numbered(head, number, tail) => numbered(sink, head, number, tail),
    }
}

/// The line of an outcome: a text, or a number between two texts.
pub enum Line {
    Text(&'static [u8]),
    Numbered(&'static [u8], u64, &'static [u8]),
}

const LINE: &[u8] = b"pgnotify: line ";

const BYTE: &[u8] = b"pgnotify: byte ";

fn line_of(status: &Status) -> Line
    ensures { line_text result ≡ fault_text status.now }
{
    match status {
        Status::Done => Line::Text(b""),
        Status::BadWords => Line::Text(
            b"usage: pgnotify run [--pages N] [--patience N] [--format N] [--live] or pgnotify drill SEED SESSIONS NOTES or pgnotify wire or pgnotify serve [--seats N] or pgnotify check [--pages N] [--patience N] [--format N]\n",
        ),
        Status::BadScenario(fault) => scenario_line(*fault),
        Status::ReadFault => Line::Text(b"pgnotify: read failed\n"),
        Status::WriteFault => Line::Text(b"pgnotify: write failed\n"),
        Status::NoMemory => Line::Text(b"pgnotify: out of memory\n"),
        Status::BadWire(fault) => Line::Numbered(BYTE, offset(*fault), b": bad message\n"),
        Status::Illegal { .. } => Line::Text(b"pgnotify: output is not legal\n"),
        Status::NoOutput => Line::Text(b"pgnotify: no output part\n"),
        Status::CheckTooLarge => {
            Line::Text(b"pgnotify: check input is larger than 67108864 bytes\n")
        }
        Status::BadFrame(fault) => Line::Numbered(BYTE, frame_offset(*fault), b": bad frame\n"),
    }
}

fn scenario_line(fault: ScenarioFault) -> Line
    ensures { line_text result ≡ scenario_fault_text fault }
{
    match fault {
        ScenarioFault::TooLarge => Line::Text(b"pgnotify: input is larger than 16777216 bytes\n"),
        ScenarioFault::LineTooLong { line } => {
            Line::Numbered(LINE, line as u64, b": line too long\n")
        }
        ScenarioFault::NotUtf8 { at } => Line::Numbered(BYTE, at as u64, b": not UTF-8\n"),
        ScenarioFault::NulByte { line } => Line::Numbered(LINE, line as u64, b": zero byte\n"),
        ScenarioFault::BadMeta { line } => Line::Numbered(LINE, line as u64, b": bad meta line\n"),
        ScenarioFault::NoSession { line } => Line::Numbered(LINE, line as u64, b": no session\n"),
        ScenarioFault::SameName { line } => {
            Line::Numbered(LINE, line as u64, b": session name used twice\n")
        }
        ScenarioFault::TooMany { line } => Line::Numbered(LINE, line as u64, b": too many\n"),
        ScenarioFault::Empty => Line::Text(b"pgnotify: no session\n"),
        ScenarioFault::NeverSignalled { line } => {
            Line::Numbered(LINE, line as u64, b": flag is never signalled\n")
        }
    }
}

// The place of the message that is refused, in bytes.
fn offset(fault: WireFault) -> u64
    ensures { result ≡ at_of fault }
{
    match fault {
        WireFault::BadType { at } => at,
        WireFault::BadLength { at } => at,
        WireFault::Truncated { at } => at,
        WireFault::BadText { at } => at,
        WireFault::TooMany { at } => at,
    }
}

// The place of the frame that is refused, in bytes.
fn frame_offset(fault: FrameFault) -> u64
    ensures { result ≡ at_of_frame fault }
{
    match fault {
        FrameFault::CutFrame { at } => at,
        FrameFault::NoSeat { at } => at,
    }
}

// A number between two texts.
#[tactic(auto, using(pgn_base::proofs::OutsideLaws::writings))]
fn numbered<K: Sink>(sink: &mut K, head: &[u8], number: u64, tail: &[u8]) -> Result<(), Failed>
    ensures bytes { Writes (K.held sink.old) (K.held sink.new) result
        (head.now ++ decimal number ++ tail.now) }
    ensures cause { HasCause (K.faults sink.old) (K.faults sink.new) result }
{
    let mut digits = Buffer::new();
    match both(sink, head, digits.format(number).as_bytes()) {
        Ok(()) => write_all(sink, tail),
        Err(failed) => Err(failed),
    }
}

#[tactic(auto, using(pgn_base::proofs::OutsideLaws::writings))]
fn both<K: Sink>(sink: &mut K, first: &[u8], second: &[u8]) -> Result<(), Failed>
    ensures bytes { Writes (K.held sink.old) (K.held sink.new) result (first.now ++ second.now) }
    ensures cause { HasCause (K.faults sink.old) (K.faults sink.new) result }
{
    match write_all(sink, first) {
        Ok(()) => write_all(sink, second),
        Err(failed) => Err(failed),
    }
}
