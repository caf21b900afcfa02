//! Why a file of grants is refused.

use roster_base::Refusal;

/// The first fault of a file of grants. Records are numbered from 1, the header being the first.
#[derive(Clone, Copy, Debug, PartialEq, Eq)]
pub enum GrantFault {
    /// The file is no UTF-8.
    NotUtf8,
    /// The header isn't `caller,token,scopes,schools`.
    Header,
    /// A record has no four cells.
    Width { record_no: u64 },
    /// A caller is no name.
    BadName { record_no: u64 },
    /// A token is no bearer token.
    BadToken { record_no: u64 },
    /// A word among the scopes is none.
    BadScope { record_no: u64 },
    /// The schools are neither `*` nor a list of ids with an id in it.
    BadSchools { record_no: u64 },
    /// A caller stands in an earlier record.
    RepeatedCaller { record_no: u64 },
    /// A token stands in an earlier record.
    RepeatedToken { record_no: u64 },
    /// There are over 10,000 grants.
    TooMany,
}

/// Why no grants were read.
pub type GrantError = Refusal<GrantFault>;
