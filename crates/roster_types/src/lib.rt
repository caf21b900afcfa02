//! Rows: a row of any kind is one type, which keeps its own validity. Contracts see a row as its kind, the
//! fields that all have, the values of its own fields by their places in the field table, and its metadata.
#![tactic(auto)]

pub mod academic_sessions;
pub mod bounds;
pub mod categories;
pub mod cell_text;
pub mod cells;
pub mod class_resources;
pub mod classes;
pub mod course_resources;
pub mod courses;
pub mod demographics;
pub mod enrollments;
pub mod lengths;
mod lent;
pub mod line_items;
pub mod metadata;
pub mod orgs;
pub mod owner;
mod parts;
pub mod resources;
pub mod results;
pub mod row;
pub mod rows;
pub mod set;
pub mod set_row;
mod shared;
pub mod status;
pub mod structs;
mod taken;
pub mod users;

pub use roster_base::{Items, NoMemory, Text};
pub use roster_texts::{Day, Id, Moment, Name};
pub use roster_values::{
    FieldForm, FieldInfo, Kind, Mode, UserId, Value, ValueError, ValueRef, Word, read_value,
};
