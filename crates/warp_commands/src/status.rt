//! How a command ended. Each end has a number, which is the program's exit status, and all
//! but a clean one a line of text.
ghost use Rattle.std.specs.Prelude.{◌≡◌};
ghost use Rattle.warp_commands.specs.Statuses.{code_of, line_of, TellsLine};

use outside::Sink;

/// How a command ended, with the number that is its exit status.
#[derive(Clone, Copy, Debug, PartialEq, Eq)]
pub enum Status {
    /// All that was asked for was answered and written.
    Clean = 0,
    /// The input ended within a request.
    Cut = 1,
    /// The words are no command.
    Usage = 2,
    /// The link failed in a read.
    ReadFault = 3,
    /// The link failed in a write, or took nothing of a piece.
    WriteFault = 4,
    /// The files failed.
    FileFault = 5,
    /// Out of memory.
    NoMemory = 6,
    /// The root isn't there, or is no folder.
    NoSuchFolder = 7,
    /// A poller failed.
    PollFault = 8,
    /// The listener failed in 1,000 accepts in a row.
    AcceptFault = 9,
    /// What the dispatchers share takes no more calls.
    Spent = 10,
    /// The output failed.
    OutFault = 11,
    /// The front failed to listen, or to make what dispatchers work with.
    CannotListen = 12,
    /// The link wasn't ready, and nothing here waits for it.
    NotReady = 13,
    /// A connection was turned away, or timed out.
    TurnedAway = 14,
}

const USAGE: &str =
    "usage: warp_serve connection ROOT | serve ROOT ADDR PORT DISPATCHERS CONNECTIONS SECONDS | drive SEED CONNECTIONS REQUESTS DISPATCHERS\n";

impl Status {
    /// The exit status.
    pub fn code(self) -> u8
        ensures { result ≡ code_of self }
    {
        self as u8
    }

    /// The line for the error stream, with its LF, or nothing where the end needs no word.
    pub fn line(self) -> &'static str
        ensures { result.now ≡ line_of self }
    {
        match self {
            Status::Clean => "",
            Status::Cut => "input cut short\n",
            Status::Usage => USAGE,
            Status::ReadFault => "read fault\n",
            Status::WriteFault => "write fault\n",
            Status::FileFault => "file fault\n",
            Status::NoMemory => "out of memory\n",
            Status::NoSuchFolder => "no such folder\n",
            Status::PollFault => "poll fault\n",
            Status::AcceptFault => "accept fault\n",
            Status::Spent => "numbers used up\n",
            Status::OutFault => "",
            Status::CannotListen => "cannot listen\n",
            Status::NotReady => "not ready\n",
            Status::TurnedAway => "turned away\n",
        }
    }
}

/// Ends before a command was begun: tells the status's line, and gives the exit status.
pub fn refuse<S: Sink>(errors: &mut S, status: Status) -> u8
    ensures code { result ≡ code_of status }
    ensures told { TellsLine (line_of status) (S.told errors.old) (S.told errors.new) }
{
    tell(errors, status);
    status.code()
}

/// Writes the status's line, if it has one. A fault of the sink changes no status.
pub(crate) fn tell<S: Sink>(errors: &mut S, status: Status)
    ensures { TellsLine (line_of status) (S.told errors.old) (S.told errors.new) }
{
    let line = status.line();
    if !line.is_empty() {
        let _ = errors.put(line.as_bytes());
    }
}
