//! What the program asks of the outside, as traits with contracts: folders, sources, sinks, a clock, acceptors of
//! connections and gates, each in memory and real.
#![tactic(auto)]

pub mod acceptor;
mod calls;
pub mod clock;
pub mod dir_folder;
pub mod failed;
pub mod fixed_clock;
pub mod folder;
pub mod gate;
pub mod held_source;
pub mod io_sink;
pub mod io_source;
pub mod lingering;
pub mod mem_acceptor;
pub mod mem_folder;
pub mod mem_sink;
pub mod mem_source;
pub mod open_gate;
pub mod sink;
pub mod source;
pub mod system_clock;
pub mod tcp_acceptor;
pub mod timed_end;

pub use acceptor::Acceptor;
pub use clock::Clock;
pub use dir_folder::DirFolder;
pub use failed::{Failed, IoError};
pub use fixed_clock::FixedClock;
pub use folder::{FileRead, Folder};
pub use gate::Gate;
pub use held_source::HeldSource;
pub use io_sink::IoSink;
pub use io_source::IoSource;
pub use lingering::Lingering;
pub use mem_acceptor::MemAcceptor;
pub use mem_folder::MemFolder;
pub use mem_sink::MemSink;
pub use mem_source::MemSource;
pub use open_gate::OpenGate;
pub use sink::Sink;
pub use source::Source;
pub use system_clock::SystemClock;
pub use tcp_acceptor::TcpAcceptor;
pub use timed_end::TimedEnd;
