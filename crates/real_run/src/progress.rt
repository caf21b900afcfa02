//! What a terminal is told while a run waits: the file that is read, or the number of the request. It decides nothing,
//! and what can't be written changes nothing.

ghost use Rattle.std.specs.Prelude.{◌≡◌};

use exchange_link::Link;
use http_wire::WireReply;
use outside_ports::{Failed, FileRead, Folder, IoError};
use std::alloc::Global;
use std::fs;

// Whether standard error is a terminal. The kit asks the system nothing of the kind, so the name of what stands there
// is looked at.
fn is_terminal(rt: HostRuntime) -> bool {
    match fs::read_link(&rt, "/proc/self/fd/2") {
        Ok(path) => {
            let name = path.as_path().to_string_lossy();
            name.starts_with("/dev/pts/") || name.starts_with("/dev/tty")
        }
        Err(_) => false,
    }
}

/// A line that is there while something is waited for. There is none where standard error is no terminal.
#[derive(Clone, Copy)]
pub(crate) struct Progress {
    rt: HostRuntime,
    on: bool,
}

impl Progress {
    /// The line for a run, which is shown where standard error is a terminal.
    pub(crate) fn new(rt: HostRuntime) -> Progress {
        Progress {
            rt,
            on: is_terminal(rt),
        }
    }

    fn show_file(self, dir: &str, name: &str) {
        if self.on {
            let _ = eprint!(self.rt; "{dir}/{name}");
        }
    }

    fn show_sent(self, sent: u64) {
        if self.on {
            let _ = eprint!(self.rt; "request {sent}");
        }
    }

    // Takes the line away, so that lines of standard output stand by themselves.
    fn clear(self) {
        if self.on {
            let _ = eprint!(self.rt; "\r\x1b[K");
        }
    }
}

/// A folder that shows which of its files is read.
#[derive(Drop)]
pub(crate) struct ShownFolder<F: Folder> {
    folder: F,
    progress: Progress,
}

impl<F: Folder> ShownFolder<F> {
    /// A folder of which each file is shown while it is read.
    pub(crate) fn new(folder: F, progress: Progress) -> ShownFolder<F> {
        ShownFolder { folder, progress }
    }
}

impl<F: Folder> Folder for ShownFolder<F> {
    ghost files = { λ shown. F.files shown.folder };

    ghost faults = { λ shown. F.faults shown.folder };

    fn size(&mut self, dir: &str, name: &str) -> Result<Option<u64>, Failed> {
        self.folder.size(dir, name)
    }

    fn read(
        &mut self,
        alloc: Global,
        dir: &str,
        name: &str,
        limit: u64,
    ) -> Result<FileRead, IoError> {
        self.progress.show_file(dir, name);
        let found = self.folder.read(alloc, dir, name, limit);
        self.progress.clear();
        found
    }

    fn faults(&self) -> u64 {
        self.folder.faults()
    }
}

/// A link that shows how many requests were sent.
#[derive(Drop)]
pub(crate) struct ShownLink<L: Link> {
    link: L,
    progress: Progress,
    sent: u64,
}

impl<L: Link> ShownLink<L> {
    /// A link of which each request is counted and shown while its reply is waited for.
    pub(crate) fn new(link: L, progress: Progress) -> ShownLink<L>
        ensures { result.link ≡ link }
    {
        ShownLink {
            link,
            progress,
            sent: 0,
        }
    }

    /// The link itself.
    pub(crate) fn link(&self) -> &L {
        &self.link
    }
}

impl<L: Link> Link for ShownLink<L> {
    ghost asked = { λ shown. L.asked shown.link };

    ghost missed = { λ shown. L.missed shown.link };

    ghost kept = { λ shown. L.kept shown.link };

    ghost fault_count = { λ shown. L.fault_count shown.link };

    ghost tells = { λ shown. L.tells shown.link };

    ghost is_hub = { λ shown told said. L.is_hub shown.link told said };

    ghost leads = { λ one two. L.leads one.link two.link };

    ghost stays = { λ shown. L.stays shown.link };

    ghost leads_on = { λ one two three p q. L.leads_on one.link two.link three.link p q };

    fn exchange(&mut self, alloc: Global, request: &[u8]) -> Result<(), IoError> {
        self.sent = self.sent.saturating_add(1);
        self.progress.show_sent(self.sent);
        let done = self.link.exchange(alloc, request);
        self.progress.clear();
        done
    }

    fn reply(&self) -> &[u8] {
        self.link.reply()
    }

    fn take_parsed(&mut self) -> Option<WireReply> {
        self.link.take_parsed()
    }

    fn missed(&self) -> u64 {
        self.link.missed()
    }

    fn faults(&self) -> u64 {
        self.link.faults()
    }
}
