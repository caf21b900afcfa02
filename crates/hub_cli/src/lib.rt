//! The program's top calls: words in, a line or an output and a status out, over whatever folder, keepers, link, clock
//! and sink are handed in.
#![tactic(auto)]

pub mod run;
pub mod serve;

pub use hub_server as server;
pub use hub_words::{
    Command, EnterTask, OptionWord, Options, Parsed, ServeWords, Spelled, WordError, keep_of,
    names_serve, peer_of, read_words, root_of, split_serve, split_words, store_of,
};
pub use run::{run_hub, run_spelled};
pub use script_runs::commands::{Answer, End, lines, print};
pub use serve::{ServeEnd, feed_lines, serve_hub};
