ghost use Rattle.std.specs.Prelude.{◌≡◌};
ghost use Rattle.wh_command.specs.Stop.{number_of};

/// How the program ends.
#[derive(Clone, Copy, Debug, PartialEq, Eq)]
pub enum Status {
    Ok,
    Refused,
    Usage,
    BadSpec,
    BadInput,
    ReadFault,
    WriteFault,
    DiskFault,
    NotLoaded,
    AlreadyLoaded,
    Damaged,
    Limit,
    NoMemory,
    NoFile,
}

impl Status {
    /// The exit status of the program.
    pub fn number(self) -> u8
        ensures { result ≡ number_of self }
    {
        match self {
            Status::Ok => 0,
            Status::Refused => 1,
            Status::Usage => 2,
            Status::BadSpec => 3,
            Status::BadInput => 4,
            Status::ReadFault => 5,
            Status::WriteFault => 6,
            Status::DiskFault => 7,
            Status::NotLoaded | Status::AlreadyLoaded => 8,
            Status::Damaged => 9,
            Status::Limit => 10,
            Status::NoMemory => 11,
            Status::NoFile => 12,
        }
    }
}
