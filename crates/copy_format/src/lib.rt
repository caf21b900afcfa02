//! The items in which a consumer's copy is kept: their labels and bodies as definitions, written and read, and the
//! edits of a change.
#![tactic(auto)]

mod area;
mod edits;
pub mod laws;
mod pieces;
mod read_outs;
mod read_rows;
mod read_stage;
mod read_token;
mod reading;
mod root;
mod staging;
mod writing;

pub use area::CopyArea;
pub use edits::{
    begin_edits, drop_edits, enter_edits, first_edits, page_edits, run_edits, settle_edits,
    swap_edits, turn_edits,
};
pub use read_outs::out_of;
pub use read_rows::rows_of;
pub use read_stage::stage_of;
pub use read_token::token_of;
pub use root::{CopyRoot, root_of};
