ghost use Rattle.std.specs.Prelude.{◌≡◌};
ghost use Rattle.refinedc_cli.specs.Status.{code_of};

/// How a command ended. A program's exit status is its code.
#[derive(Clone, Copy, Debug, PartialEq, Eq, Hash)]
pub enum Status {
    /// The file's functions meet their annotations.
    Accepted,
    /// A goal stayed unsolved.
    Refused,
    /// The file has a fault, or isn't of the form that this version checks.
    FileRefused,
    /// The words are no command.
    Usage,
    /// The file couldn't be opened or read.
    ReadFault,
    /// The answer couldn't be written.
    WriteFault,
    /// A limit was passed.
    Limit,
    NoMemory,
}

impl Status {
    /// The exit status, from 0 to 7.
    pub fn code(self) -> u8
        ensures { result ≡ code_of self }
    {
        match self {
            Status::Accepted => 0,
            Status::Refused => 1,
            Status::FileRefused => 2,
            Status::Usage => 3,
            Status::ReadFault => 4,
            Status::WriteFault => 5,
            Status::Limit => 6,
            Status::NoMemory => 7,
        }
    }
}
