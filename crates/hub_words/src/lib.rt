//! The words of the command line, what they ask for, and the statuses that the program ends with.
#![tactic(auto)]

pub mod commands;
mod options;
mod serving;
pub mod statuses;
pub mod task;
pub mod words;

pub use serving::{names_serve, split_serve};
pub use task::{Feed, GradebookObject, MakeTask, SendTask, ServeTask, SyncTask, is_gradebook};
pub use words::{
    Command, EnterTask, OptionWord, Options, Parsed, ServeWords, Spelled, WordError, keep_of,
    peer_of, read_words, root_of, split_words, store_of,
};
