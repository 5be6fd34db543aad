ghost use Rattle.std.specs.Prelude.{◌≡◌};
ghost use Rattle.pt_main.specs.Ending.{exit_number_of};

/// How a run ended.
#[derive(Clone, Copy, Debug, PartialEq, Eq)]
pub enum Status {
    /// Every command was answered.
    Done,
    /// The line of a refusal was written.
    Refused,
    /// The words are not the defined ones.
    Usage,
    /// The source failed.
    ReadFault,
    /// The sink failed.
    WriteFault,
    NoMemory,
    /// A shard of the store is full.
    StoreFull { shard: u32 },
}

impl Status {
    /// The exit number of a process that ends so.
    pub fn exit_number(self) -> u8
        ensures { result ≡ exit_number_of self }
    {
        match self {
            Status::Done => 0,
            Status::Refused => 1,
            Status::Usage => 2,
            Status::ReadFault => 3,
            Status::WriteFault => 4,
            Status::NoMemory => 5,
            Status::StoreFull { shard: _ } => 6,
        }
    }
}
