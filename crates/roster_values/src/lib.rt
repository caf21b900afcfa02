//! The kinds of roster data, the fields of each, and the values that cells give them.
#![tactic(auto)]

pub mod fault;
pub mod fields;
pub mod kind;
pub mod lists;
pub mod mode;
pub mod reading;
pub mod same;
pub mod user_id;
pub mod value;
pub mod word;

pub use fault::ValueError;
pub use fields::{FieldForm, FieldInfo};
pub use kind::Kind;
pub use lists::{Ids, Texts};
pub use mode::Mode;
pub use reading::read_value;
pub use same::{are_same_fields, is_same_value};
pub use user_id::{UserId, UserIds};
pub use value::{Value, ValueRef, copy_value};
pub use word::Word;
