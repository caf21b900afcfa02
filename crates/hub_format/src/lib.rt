//! The items in which a hub's state is kept: their labels and bodies as definitions, written and read, and the edits
//! that store them.
#![tactic(auto)]

mod area;
mod edits;
mod fold;
pub mod laws;
mod pieces;
mod plan;
mod read_grants;
mod read_marks;
mod read_rows;
mod read_state;
mod reading;
mod writing;

pub use area::{END_BYTE, HubArea};
pub use edits::{
    WRITTEN_FORMAT, clear_version, number_bytes, push_mark, put_format, put_some_grants, put_state,
};
pub use fold::{change_parts, push_grants};
pub use pieces::{kind_byte, push_number, push_sized};
pub use plan::lets_go;
pub use read_grants::{grants_of, id_at};
pub use read_marks::{marks_of, write_of};
pub use read_rows::{key_of, row_of_body, rows_of, with_id};
pub use read_state::{StoredState, state_of, version_of};
pub use reading::{
    Format, NUMBER_SIZE, behind, format_of, label_parts, number_at, only_body, only_number,
    sized_at, state_parts,
};
pub use writing::{change_body, put_version, row_body};
