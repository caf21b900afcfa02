//! Which rows a grant sees, pages of the rows that paths list in the order that a query asks for, pages of what differs
//! between two versions, and the links of a page to the others of its list.
#![tactic(auto)]

pub mod belonging;
mod by_id;
mod deltas;
mod field_test;
mod filter_test;
mod in_order;
mod links;
pub mod list_part;
pub mod list_test;
mod pages;
mod row_tests;
pub mod seen;
mod sorting;
mod target;
mod text_test;
mod whole;

pub use deltas::delta_page;
pub use list_part::{Part, part_of};
pub use list_test::ListTest;
pub use pages::{one, page, seen_page, version_page};
pub use seen::{RowTest, SeenRows, sees};
pub use target::base_of;
