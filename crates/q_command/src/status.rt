//! The statuses of all commands, and the exit status of each: 10 and 20 for truth values, as with QBF and SAT solvers.
ghost use Rattle.std.specs.Prelude.{◌≡◌};
ghost use Rattle.q_command.specs.Statuses.{code_of, passes as spec_passes};

/// How a run ends.
#[derive(Clone, Copy, Debug, PartialEq, Eq)]
pub enum Status {
    Done,
    True,
    False,
    Spent,
    LogRefused,
    InputRefused,
    ReadFault,
    WriteFault,
    NoMemory,
    CircuitsRefused,
    Extended,
    Invalid,
    Unknown,
    Usage,
}

impl Status {
    /// The exit status of the program.
    pub fn code(&self) -> u8
        ensures { result ≡ code_of self.now }
    {
        match self {
            Status::Done => 0,
            Status::True => 10,
            Status::False => 20,
            Status::Spent => 2,
            Status::LogRefused => 1,
            Status::InputRefused => 3,
            Status::ReadFault => 4,
            Status::WriteFault => 5,
            Status::NoMemory => 6,
            Status::CircuitsRefused => 7,
            Status::Extended => 8,
            Status::Invalid => 9,
            Status::Unknown => 12,
            Status::Usage => 64,
        }
    }

    /// Whether the command that follows is done.
    pub fn passes(&self) -> bool
        ensures { result ≡ spec_passes self.now }
    {
        match self {
            Status::Done | Status::True | Status::False => true,
            _ => false,
        }
    }
}
