use pgn_frames::FrameFault;
use pgn_language::ScenarioFault;
use pgn_queries::WireFault;

/// How a run ended. Its `code` is the program's exit status.
#[derive(Clone, Copy)]
pub enum Status {
    /// The whole output was written.
    Done,
    /// The words of the command line are no command.
    BadWords,
    /// The input is no scenario.
    BadScenario(ScenarioFault),
    /// The source failed.
    ReadFault,
    /// The sink failed; a prefix of the output was written, or of a live run of the lines of what its sessions did, or of what the clients of
    /// `serve` were told.
    WriteFault,
    /// Memory did not suffice; nothing was written, or of a live run its first lines, of `wire` whole answers, or of `serve` whole turns.
    NoMemory,
    /// What a client of the wire sent is at fault; what it asked before was answered.
    BadWire(WireFault),
    /// The text that was to be checked is no output of a legal run; the line that is to blame first, from 1.
    Illegal { line: usize },
    /// No line of the input of `check` is `\output`.
    NoOutput,
    /// The input of `check` is too large.
    CheckTooLarge,
    /// What `serve` reads is at fault; the frames before were served.
    BadFrame(FrameFault),
}

impl Status {
    ghost use Rattle.std.specs.Prelude.{◌≡◌};
    ghost use Rattle.pgn_run.specs.Run.{code_of};

    /// The program's exit status: 0, 2 to 6, or 8 to 12.
    pub fn code(&self) -> u8
        ensures { result ≡ code_of self.now }
    {
        match self {
            Status::Done => 0,
            Status::BadWords => 2,
            Status::BadScenario(_) => 3,
            Status::ReadFault => 4,
            Status::WriteFault => 5,
            Status::NoMemory => 6,
            Status::Illegal { .. } => 8,
            Status::NoOutput => 9,
            Status::BadWire(_) => 10,
            Status::CheckTooLarge => 11,
            Status::BadFrame(_) => 12,
        }
    }
}
