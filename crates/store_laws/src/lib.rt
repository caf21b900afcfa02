//! What hub and consumer have of their stores: laws on stores of items in a database, and on the keepers over them.
#![tactic(auto)]

pub mod items;
pub mod stored;
