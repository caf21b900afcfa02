//! Versions of a roster: a base, and the changes that lead from it to the newest.
#![tactic(auto)]

pub mod change;
mod copies;
pub mod grant_row;
mod histories;
mod history;
pub mod hub_tables;
mod kept_refs;
pub mod mark;
pub mod marks;
pub mod merge;
mod ref_index;
mod ref_runs;
pub mod references;
mod reserved;
pub mod row_change;
mod since;
pub mod sorted;
pub mod sorted_rows;
pub mod span;
pub mod table;
mod version_log;
pub mod view;
