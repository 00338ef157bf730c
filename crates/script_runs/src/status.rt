/// How a run ended. The number is the exit status of the program.
#[derive(Clone, Copy, PartialEq, Eq)]
pub enum Status {
    /// Each command was accepted, and the script was read to its end.
    Done,
    /// Some command was refused.
    Refused,
    /// The words of the command line were refused.
    Usage,
    /// Source, sink or store failed.
    Outside,
    /// There was not enough memory, in a command or outside one.
    Memory,
}

impl Status {
    ghost use Rattle.std.specs.Prelude.{◌≡◌};
    ghost use Rattle.script_runs.specs.Codes.{code_of};

    /// The exit status: 0 for `Done`, then 1 to 4 in the order of the variants.
    pub fn code(self) -> u8
        ensures { result ≡ code_of self }
    {
        match self {
            Status::Done => 0,
            Status::Refused => 1,
            Status::Usage => 2,
            Status::Outside => 3,
            Status::Memory => 4,
        }
    }
}
