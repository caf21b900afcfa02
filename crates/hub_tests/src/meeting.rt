//! A read that is answered while the commit of a feed is under way: each is held until the other is there.

use crate::runs::{Given, files_of};
use crate::server::{acceptor, serve};
use crate::serving::{GET_ORGS, assert_newest, lake_keeper};
use hub_server::Doors;
use keeper_memory::{HubCommit, HubKeeper, MemHub};
use outside_ports::{Gate, MemFolder};
use roster_base::KeeperError;
use std::alloc::Global;
use std::sync::atomic::{AtomicBool, Ordering};
use std::test::Fail;
use version_core::hub_tables::HubTables;

// How often a wait looks at its word at most.
const MOST_TURNS: u32 = 100_000_000;

// The job of the reader, behind that of the feed.
const READER: u32 = 1;

// What the feed's commit and the reader's call tell each other.
#[derive(Drop)]
struct Meeting {
    // The commit has begun.
    begun: AtomicBool,
    // The reader's first call was made.
    made: AtomicBool,
    // A wait has used up its turns.
    missed: AtomicBool,
}

impl Meeting {
    fn new() -> Meeting {
        Meeting {
            begun: AtomicBool::new(false),
            made: AtomicBool::new(false),
            missed: AtomicBool::new(false),
        }
    }

    // Waits until the word is true.
    fn wait_for(&self, word: &AtomicBool) {
        for _ in 0..MOST_TURNS {
            if word.load(Ordering::SeqCst) {
                return;
            }
        }
        self.missed.store(true, Ordering::SeqCst);
    }

    // Whether the commit began, the reader's call was made, and neither wait used up its turns.
    fn took_place(&self) -> bool {
        self.begun.load(Ordering::SeqCst)
            && self.made.load(Ordering::SeqCst)
            && !self.missed.load(Ordering::SeqCst)
    }
}

impl Gate for Meeting {
    fn arrive(&self, job: u32, turn: u64) {
        if job == READER && turn == 0 {
            self.wait_for(&self.begun);
        }
    }

    fn passed(&self, job: u32, turn: u64) {
        if job == READER && turn == 0 {
            self.made.store(true, Ordering::SeqCst);
        }
    }
}

// A keeper in memory, each commit of which waits for the reader.
#[derive(Drop)]
struct MeetingHub<'a> {
    hub: MemHub,
    meeting: &'a Meeting,
}

impl<'a> HubKeeper for MeetingHub<'a> {
    ghost use Rattle.std.specs.Prelude.{◌≡◌, ⊤};

    ghost stands_for = { λ h kept. kept ≡ h.hub.kept };

    ghost fault_count = { λ h. h.hub.plan.faults };

    ghost leads = { λ _ _. ⊤ };

    ghost stays = { λ _. tt };

    ghost leads_on = { λ _ _ _ _ _. tt };

    fn load(&mut self, alloc: Global) -> Result<HubTables, KeeperError> {
        self.hub.load(alloc)
    }

    fn commit(&mut self, alloc: Global, commit: &HubCommit) -> Result<(), KeeperError> {
        self.meeting.begun.store(true, Ordering::SeqCst);
        self.meeting.wait_for(&self.meeting.made);
        self.hub.commit(alloc, commit)
    }

    fn faults(&self) -> u64 {
        self.hub.faults()
    }
}

#[test]
fn a_read_is_answered_beside_a_feed(rt: HostRuntime) -> Result<(), Fail> {
    let alloc = rt.alloc();
    let meeting = Meeting::new();
    let folder = MemFolder::new(files_of(alloc, Given::Nothing)?, Vec::new(alloc));
    let doors = Doors {
        acceptors: vec![in alloc; acceptor(alloc, GET_ORGS, 1, &[])?]?,
        folders: vec![in alloc; folder]?,
    };
    let keeper = MeetingHub {
        hub: lake_keeper(&rt, alloc)?,
        meeting: &meeting,
    };
    let (status, keeper) = serve(&rt, alloc, "serve 1 hub:1 sis=new", doors, keeper, &meeting);
    let MeetingHub { hub, .. } = keeper;
    assert_newest(&rt, alloc, hub, "grants unchanged 3\n")?;
    assert_eq!(rt; (status, meeting.took_place()), (0, true));
    Ok(())
}
