//! How a run of a program ends.
ghost use Rattle.std.specs.Prelude.{◌≡◌, ◌⊎◌, ◌↔◌};
ghost use Rattle.cli.specs.Status.{code_of, worse_of};
ghost use Rattle.cli.specs.declared.status.Status.TheVariants.{Done};

/// How a run ends, or a part of it.
#[derive(Clone, Copy, Debug, PartialEq, Eq)]
pub enum Status {
    /// All was done, and nothing was refused.
    Done,

    /// Octets were refused.
    Refused,

    /// A file can't be read.
    Unread,

    /// The output can't be written, or memory ran out. Nothing more is done.
    Failed,
}

impl Status {
    /// Returns the exit status of the program.
    pub fn code(self) -> u8
        ensures { result ≡ code_of self }
    {
        match self {
            Status::Done => 0,
            Status::Refused => 1,
            Status::Unread => 2,
            Status::Failed => 1,
        }
    }

    /// Returns how two parts end, one after the other.
    pub fn and(self, other: Status) -> Status
        ensures worse { result ≡ worse_of self other }
        ensures both { (result ≡ Done) ↔ (self ≡ Done) × (other ≡ Done) }
        ensures either { (result ≡ self) ⊎ (result ≡ other) }
    {
        match other {
            Status::Done => self,
            Status::Refused => match self {
                Status::Done => Status::Refused,
                _ => self,
            },
            Status::Unread => match self {
                Status::Failed => Status::Failed,
                _ => Status::Unread,
            },
            Status::Failed => Status::Failed,
        }
    }
}
