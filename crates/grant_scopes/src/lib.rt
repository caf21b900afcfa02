//! What callers may see and do: the types of grants, and what scopes open.
#![tactic(auto)]

pub mod access;
pub mod entry;
pub mod grant;
pub mod grant_list;
pub mod opening;
pub mod schools;
pub mod scope_info;
pub mod scopes;
mod words;

pub use access::Access;
pub use entry::GrantEntry;
pub use grant::Grant;
pub use grant_list::GrantList;
pub use opening::opens;
pub use schools::{SchoolList, Schools};
pub use scope_info::ScopeInfo;
pub use scopes::Scopes;
