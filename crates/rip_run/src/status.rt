//! How a call ends.
ghost use Rattle.std.specs.Prelude.{◌≡◌};

/// The answer of a top call.
#[derive(Clone, Copy, Debug, PartialEq, Eq)]
pub enum Status {
    /// The defined end. So many pages ran again.
    Done { reruns: u64 },
    /// An error stopped a section. So many pages ran again.
    JobError { reruns: u64 },
    /// The words are not in the grammar.
    Usage,
    /// The source gave more than 268,435,456 bytes.
    TooLarge,
    /// The job has more than 100,000 pages: so many.
    TooManyPages { count: u32 },
    /// The source failed.
    ReadFault,
    /// A sink failed.
    WriteFault,
    /// Memory ran out.
    NoMemory,
}

impl Status {
    ghost use Rattle.rip_run.specs.Status.{exit_of};

    /// The exit status of the program.
    pub fn exit(self) -> u8
        ensures { result ≡ exit_of self }
    {
        match self {
            Status::Done { .. } => 0,
            Status::JobError { .. } => 1,
            Status::Usage => 2,
            Status::TooLarge | Status::TooManyPages { .. } => 3,
            Status::ReadFault => 4,
            Status::WriteFault => 5,
            Status::NoMemory => 6,
        }
    }
}
