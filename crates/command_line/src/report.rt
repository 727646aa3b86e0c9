//! Why the program ends without having done what it was asked for.

ghost use Rattle.std.specs.Prelude.{◌≡◌};
ghost use Rattle.command_line.specs.Failures.{exit_status, setup_failure, serve_failure, device_failure};

use crate::fault::{Reason, ReplayFault};
use crate::wrong::Wrong;
use journal_picture::PictureFault;
use proxy_settings::FileFault;
use server_faults::{DeviceFault, ServeFault};
use std::alloc::{AllocError, AllocFailed};
use std::fmt;
use std::io::{self, ErrorKind};

/// The first line of what `--help` prints, and what wrong arguments are told.
pub const USAGE: &str = "usage: hcproxy replay [--journal] | hcproxy serve | hcproxy origin";

/// Why the program ends without having done what it was asked for.
#[derive(Clone, Copy)]
pub enum Failure {
    Usage,
    /// A file has no settings of the part.
    Settings,
    /// A file of settings can't be read, a text can't be printed, or the clock, the threads or the
    /// sockets of the gateway or the device fail.
    Device,
    Memory,
    Replay(ReplayFault),
}

impl Failure {
    /// The exit status that tells of the failure.
    pub fn status(self) -> u8
        ensures { result ≡ exit_status self }
    {
        match self {
            Failure::Settings | Failure::Replay(ReplayFault::Line(_)) => 1,
            Failure::Usage => 2,
            Failure::Device | Failure::Replay(ReplayFault::Device) => 3,
            Failure::Memory | Failure::Replay(ReplayFault::Memory) => 3,
        }
    }

    /// What a file without settings is to the program.
    pub fn of_file(fault: FileFault) -> Failure
        ensures { result ≡ setup_failure fault }
    {
        match fault {
            FileFault::TooLarge | FileFault::NotText(_) | FileFault::Refused(_, _) => {
                Failure::Settings
            }
            FileFault::Unread(_) => Failure::Device,
            FileFault::Memory => Failure::Memory,
        }
    }

    /// What a gateway that doesn't run is to the program.
    pub fn of_serve(fault: ServeFault) -> Failure
        ensures { result ≡ serve_failure fault }
    {
        match fault {
            ServeFault::Listen(_, _)
            | ServeFault::Udp(_, _)
            | ServeFault::Window(_, _)
            | ServeFault::Clock(_)
            | ServeFault::Thread
            | ServeFault::Stopped => Failure::Device,
            ServeFault::Memory => Failure::Memory,
        }
    }

    /// What a device that doesn't run is to the program.
    pub fn of_device(fault: DeviceFault) -> Failure
        ensures { result ≡ device_failure fault }
    {
        match fault {
            DeviceFault::Listen(_, _) | DeviceFault::Clock(_) | DeviceFault::Stopped => {
                Failure::Device
            }
            DeviceFault::Memory => Failure::Memory,
        }
    }
}

impl fmt::Display for Failure {
    fn fmt<W: fmt::Write>(&self, f: &mut fmt::Formatter<W>) -> fmt::Result {
        match self {
            Failure::Usage => f.write_str(USAGE),
            Failure::Settings => f.write_str("hcproxy: settings refused"),
            Failure::Device => f.write_str("hcproxy: device failed"),
            Failure::Memory => f.write_str("hcproxy: out of memory"),
            Failure::Replay(fault) => write!(f, "hcproxy: {fault}"),
        }
    }
}

/// What else can be said of a failure.
#[derive(Clone, Copy)]
pub enum Hint<'a> {
    SeeHelp,
    /// What is wrong with the words after the program's name.
    Arguments(Wrong<'a>),
    Because(Reason),
    /// There is no file of that path.
    NoFile(&'a str),
    /// What is wrong with the file of that path.
    File(&'a str, FileFault),
    /// Why journals can't be written into the folder of that path.
    Folder(&'a str, io::Error),
    /// Why the gateway doesn't run, or runs no more.
    Serve(ServeFault),
    /// Why the demonstration device doesn't run, or runs no more.
    Origin(DeviceFault),
}

impl fmt::Display for Hint<'_> {
    fn fmt<W: fmt::Write>(&self, f: &mut fmt::Formatter<W>) -> fmt::Result {
        match self {
            Hint::SeeHelp => f.write_str("hcproxy: --help says more"),
            Hint::Arguments(wrong) => write!(f, "hcproxy: {wrong}; --help says more"),
            Hint::Because(reason) => write!(f, "hcproxy: {reason}"),
            Hint::NoFile(path) => write!(f, "hcproxy: {path}: no such file"),
            Hint::File(path, fault) => write!(f, "hcproxy: {path}: {fault}"),
            Hint::Folder(path, error) => {
                write!(
                    f,
                    "hcproxy: {path}: no journal can be written there: {error}"
                )
            }
            Hint::Serve(fault) => write!(f, "hcproxy: {fault}"),
            Hint::Origin(fault) => write!(f, "hcproxy: {fault}"),
        }
    }
}

/// A failure, with a second line where more can be said.
#[derive(Clone, Copy)]
pub struct Report<'a> {
    pub failure: Failure,
    pub hint: Option<Hint<'a>>,
}

impl<'a> Report<'a> {
    /// Wrong arguments.
    pub fn usage(hint: Hint<'a>) -> Report<'a> {
        Report {
            failure: Failure::Usage,
            hint: Some(hint),
        }
    }

    /// Wrong arguments, in which this is wrong.
    pub fn arguments(wrong: Wrong<'a>) -> Report<'a> {
        Report::usage(Hint::Arguments(wrong))
    }

    /// A run that failed.
    pub fn replay(fault: ReplayFault, reason: Option<Reason>) -> Report<'a> {
        let hint = match reason {
            Some(reason) => Some(Hint::Because(reason)),
            None => None,
        };
        Report {
            failure: Failure::Replay(fault),
            hint,
        }
    }

    /// A journal that isn't drawn.
    pub fn picture(fault: PictureFault) -> Report<'a> {
        match fault {
            PictureFault::Line(number, why) => {
                Report::replay(ReplayFault::Line(number), Some(Reason::Journal(why)))
            }
            PictureFault::Unended(number) => {
                Report::replay(ReplayFault::Line(number), Some(Reason::Unended))
            }
            PictureFault::NotText(number) => {
                Report::replay(ReplayFault::Line(number), Some(Reason::NotText))
            }
            PictureFault::Memory => Report::memory(),
        }
    }

    /// A file without settings.
    pub fn file(path: &'a str, fault: FileFault) -> Report<'a> {
        let hint = match fault {
            FileFault::Memory => None,
            FileFault::Unread(error) if error.kind() == ErrorKind::NotFound => {
                Some(Hint::NoFile(path))
            }
            _ => Some(Hint::File(path, fault)),
        };
        Report {
            failure: Failure::of_file(fault),
            hint,
        }
    }

    /// A folder into which no journal can be written.
    pub fn folder(path: &'a str, error: io::Error) -> Report<'a> {
        Report {
            failure: Failure::Device,
            hint: Some(Hint::Folder(path, error)),
        }
    }

    /// A gateway that doesn't run, or runs no more.
    pub fn serve(fault: ServeFault) -> Report<'a> {
        let hint = match fault {
            ServeFault::Memory => None,
            _ => Some(Hint::Serve(fault)),
        };
        Report {
            failure: Failure::of_serve(fault),
            hint,
        }
    }

    /// A device that doesn't run, or runs no more.
    pub fn origin(fault: DeviceFault) -> Report<'a> {
        let hint = match fault {
            DeviceFault::Memory => None,
            _ => Some(Hint::Origin(fault)),
        };
        Report {
            failure: Failure::of_device(fault),
            hint,
        }
    }

    /// A text that can't be printed.
    pub fn unprinted() -> Report<'a> {
        Report {
            failure: Failure::Device,
            hint: Some(Hint::Because(Reason::Output)),
        }
    }

    /// Standard input can't be read.
    pub fn unread() -> Report<'a> {
        Report {
            failure: Failure::Device,
            hint: Some(Hint::Because(Reason::Input)),
        }
    }

    /// Memory ran out.
    pub fn memory() -> Report<'a> {
        Report {
            failure: Failure::Memory,
            hint: None,
        }
    }
}

/// A line for the failure, and one for what else can be said of it. A missing file needs only one.
impl fmt::Display for Report<'_> {
    fn fmt<W: fmt::Write>(&self, f: &mut fmt::Formatter<W>) -> fmt::Result {
        match self.hint {
            Some(Hint::NoFile(_)) | None => {}
            Some(_) => write!(f, "{}\n", self.failure)?,
        }
        match self.hint {
            Some(hint) => write!(f, "{hint}"),
            None => write!(f, "{}", self.failure),
        }
    }
}

impl From<AllocError> for Report<'_> {
    fn from(_e: AllocError) -> Self {
        Report::memory()
    }
}

impl<T: Drop> From<AllocFailed<T>> for Report<'_> {
    fn from(_e: AllocFailed<T>) -> Self {
        Report::memory()
    }
}
