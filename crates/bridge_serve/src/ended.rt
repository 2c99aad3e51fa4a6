//! How the program ends.
ghost use Rattle.std.specs.Prelude.{◌≡◌};
ghost use Rattle.bridge_serve.specs.Status.{status_of};

/// How the program ended.
#[derive(Clone, Copy)]
pub enum Ended {
    /// The input is at its end.
    AtEnd,
    /// It said why it stops.
    Stopped,
    /// There is no input.
    NoInput,
    /// The input failed.
    ReadFault,
    /// The output failed.
    WriteFault,
    NoMemory,
    /// It has answered and read as often as it counts: some 2^64 times.
    TooMany,
}

impl Ended {
    /// The exit status of the program.
    pub fn status(&self) -> u8
        ensures { result ≡ status_of self.now }
    {
        match self {
            Ended::AtEnd => 0,
            Ended::Stopped => 1,
            Ended::NoInput => 3,
            Ended::ReadFault => 3,
            Ended::WriteFault => 4,
            Ended::NoMemory => 7,
            Ended::TooMany => 8,
        }
    }
}
