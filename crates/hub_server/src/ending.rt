//! How a server ends.

ghost use Rattle.std.specs.Prelude.{◌≡◌};
ghost use Rattle.hub_server.specs.Endings.{or_else};

/// How a job of a server ended, or the server.
#[derive(Clone, Copy, Debug, PartialEq, Eq)]
pub enum Ending {
    /// The set was published, or the stated number of connections was served.
    Done,
    /// The folder of a feed failed, and its count of faults rose.
    FolderFailed,
    /// The set of a feed was refused.
    Refused,
    /// The hub's keeper failed, and its count of faults rose.
    KeeperFailed,
    /// An acceptor failed, and its count of faults rose.
    AcceptorFailed,
    /// Memory ran out, which says nothing of the input.
    NoMemory,
}

impl Ending {
    /// This ending, or where it is Done the other.
    pub fn or(self, other: Ending) -> Ending
        ensures { result ≡ or_else self other }
    {
        match self {
            Ending::Done => other,
            _ => self,
        }
    }
}
