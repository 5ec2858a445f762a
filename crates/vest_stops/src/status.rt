//! How a call ends.
ghost use Rattle.std.specs.Prelude.{◌≡◌};

/// How a call ends. The numbers are the exit codes of the program.
#[derive(Clone, Copy, Debug, PartialEq, Eq)]
pub enum Status {
    /// Every thread ended by EXIT, and all bytes were written; for `translate` and `list`, all bytes were written.
    Ok = 0,
    /// The words spell no command.
    Usage = 1,
    /// The desk has no such file.
    Absent = 2,
    /// The image, the translated file or the flow is refused.
    Refused = 3,
    /// Some thread ended by an exception that no handler took.
    Exception = 4,
    /// A processor used up its budget, or the history has its limit.
    Spent = 5,
    ReadFault = 6,
    WriteFault = 7,
    /// The file or the input has too many bytes.
    TooLong = 8,
    WantOfMemory = 9,
}

impl Status {
    ghost use Rattle.vest_stops.specs.Status.{number_of};

    /// The exit code of the program.
    pub fn number(self) -> u8
        ensures { result ≡ number_of self }
    {
        self as u8
    }
}

/// How a call ends that did not stop before it wrote.
#[derive(Clone, Copy, Debug, PartialEq, Eq)]
pub enum Done {
    Ok,
    Exception,
    Spent,
    /// A read of the input failed while the thread ran, maybe behind output.
    ReadFault,
    WriteFault,
}

impl Done {
    ghost use Rattle.vest_stops.specs.Status.{status_of_done};

    pub fn status(self) -> Status
        ensures { result ≡ status_of_done self }
    {
        match self {
            Done::Ok => Status::Ok,
            Done::Exception => Status::Exception,
            Done::Spent => Status::Spent,
            Done::ReadFault => Status::ReadFault,
            Done::WriteFault => Status::WriteFault,
        }
    }
}
