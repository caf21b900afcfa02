//! The hub.

ghost use Rattle.std.specs.Prelude.{◌≡◌, Err, IfOk, None, Ok, OnErr, Some, false, true};
ghost use Rattle.std.specs.Option.{ForSome};
ghost use Rattle.version_changes.specs.grants.Granting.{GrantsMake};
ghost use Rattle.version_changes.specs.sets.Applying.{Applies};
ghost use Rattle.version_changes.specs.sets.Steps.{IsSound};
ghost use Rattle.version_core.specs.Version.{newest_of};
ghost use Rattle.keeper_memory.specs.Commits.{CanCommit, CanLead};
ghost use Rattle.keeper_memory.specs.Kept.{IsKept, KeptState, newest_kept};
ghost use Rattle.hub_core.specs.Hub.{MayBeMade};
ghost use Rattle.hub_core.specs.Made.{Adopts, made_last};
ghost use Rattle.hub_core.specs.Standing.{IsStanding, KeeperFits, StandsFrom};
ghost use Rattle.hub_core.specs.Steps.{CountsFault, Installs, LeavesOpen, MakesNext, RefusesNothing};
ghost use Rattle.hub_core.specs.Works.{Did, DidReload, Handed, Works, copy_kept};
ghost use Rattle.hub_core.specs.declared.hub_error.HubError.TheVariants as error;

use crate::hub_error::HubError;
use crate::published::Published;
use crate::room::{is_made, make_room, take_in, take_in_made};
use grant_scopes::GrantList;
use keeper_memory::{HubCommit, HubKeeper};
use roster_base::{KeeperError, NoMemory, Refusal, TryCopy};
use roster_texts::Moment;
use roster_types::set::RosterSet;
use std::alloc::Global;
use std::marker::Model;
use std::mem::replace;
use version_changes::{PublishFault, grants_change, set_change_over};
use version_core::change::Change;
use version_core::marks::Marks;
use version_core::table::Table;

/// A hub's state in memory. The keeper goes in with each call. A clause sees the state, a last commit, whether the
/// keeper failed at that one and hasn't been asked yet what it made of it, and whether commits are kept. Where they
/// are, the last commit is the last one that was handed to the keeper and not handed out since; else it is the last one
/// at which the keeper failed, where none was made since.
#[derive(Drop)]
pub struct Hub {
    table: Table,
    marks: Marks,
    last: Option<HubCommit>,
    commit_open: bool,
    keeps: bool,
    // Whether the newest version is known to have no broken references, so that a set needs to be checked where it
    // changes rows alone.
    is_sound: bool,
}

impl Model for Hub {
    ghost use Rattle.hub_core.specs.Standing.{HeldHub};

    ghost Value = { HeldHub };

    ghost use Rattle.hub_core.specs.Hub.{IsHub, held_of};

    ghost view = { held_of };

    ghost invariant = { IsHub };
}

// Whether the newest version has no broken references because it has no rows.
fn is_known_sound(table: &Table) -> bool
    ensures { result ≡ true → IsSound (newest_of table.now) }
{
    table.newest_rows().is_empty()
}

impl Hub {
    /// The hub of what a keeper keeps.
    pub fn open<H: HubKeeper>(alloc: Global, keeper: &mut H) -> Result<Hub, HubError>
        ensures fits { IfOk result (KeeperFits (H.stands_for keeper.new)) }
        ensures settled { IfOk result (λ hub. (hub.commit_open ≡ false) × (hub.last ≡ None)) }
        ensures keeps { IfOk result (λ hub. hub.keeps ≡ false) }
        ensures kept { IfOk result (λ hub. IsKept hub.kept) }
        ensures told { (kept : KeptState) → H.stands_for keeper.new kept → H.stands_for keeper.old kept }
        ensures cause { CountsFault (H.fault_count keeper.old) (H.fault_count keeper.new) result }
        ensures leads { H.leads keeper.old keeper.new }
        ensures refused { RefusesNothing result }
    {
        let tables = keeper.load(alloc)?;
        let table = Table::from_tables(alloc, &tables)?;
        let is_sound = is_known_sound(&table);
        Ok(Hub {
            table,
            marks: Marks::from_tables(alloc, &tables)?,
            last: None,
            commit_open: false,
            keeps: false,
            is_sound,
        })
    }

    /// The versions that are kept. No memory is taken.
    pub fn table(&self) -> &Table
        ensures keep { result.now.keep ≡ self.now.kept.keep }
        ensures versions { result.now.versions ≡ self.now.kept.versions }
        ensures kept { IsKept self.now.kept }
    {
        &self.table
    }

    /// Has look-ups by reference find rows by an index from now on. They answer the same without it.
    pub fn index(&mut self)
        ensures { self.new ≡ self.old }
    {
        self.table.index();
    }

    /// The marks. No memory is taken.
    pub fn marks(&self) -> &Marks
        ensures { result.now.marks ≡ self.now.kept.marks }
    {
        &self.marks
    }

    /// Has each commit kept from now on, so that whoever asks can tell what a call made: a copy of it is taken before
    /// it is handed to the keeper.
    pub fn keep_commits(&mut self)
        ensures { self.new ≡ record self.old { keeps = true } }
    {
        self.keeps = true;
    }

    /// Whether the keeper failed at the last commit, and hasn't been asked yet what it made of it.
    pub fn has_open_commit(&self) -> bool
        ensures is { result ≡ self.now.commit_open }
        ensures left { result ≡ true → MayBeMade self.now.kept self.now.last }
    {
        self.commit_open
    }

    /// Hands out the last commit, where it was made. No memory is taken.
    pub fn take_made(&mut self) -> Option<HubCommit>
        requires { self.old.commit_open ≡ false }
        ensures hub { self.new ≡ record self.old { last = None } }
        ensures made { result ≡ made_last self.old.kept self.old.last }
    {
        let Some(last) = self.last.take() else {
            return None;
        };
        if is_made(&self.table, &self.marks, &last) {
            Some(last)
        } else {
            drop(last);
            None
        }
    }

    /// Asks the keeper what it made of a commit at which it failed, where there is one, and takes the commit in where
    /// it was made. Nothing else of what the keeper keeps is taken.
    pub fn ready<H: HubKeeper>(&mut self, alloc: Global, keeper: &mut H) -> Result<(), HubError>
        requires { KeeperFits (H.stands_for keeper.old) self.old }
        ensures fits { KeeperFits (H.stands_for keeper.new) self.new }
        ensures told { (after : KeptState) → IsStanding self.new after → IsStanding self.old after × (H.stands_for keeper.new after → H.stands_for keeper.old after) }
        ensures settled { LeavesOpen result self.new.commit_open }
        ensures last { self.new.last ≡ self.old.last }
        ensures keeps { self.new.keeps ≡ self.old.keeps }
        ensures err { OnErr result (self.new ≡ self.old) }
        ensures idle { self.old.commit_open ≡ false → (result ≡ Ok tt) × (self.new ≡ self.old) × (keeper.new ≡ keeper.old) }
        ensures cause { CountsFault (H.fault_count keeper.old) (H.fault_count keeper.new) result }
        ensures leads { H.leads keeper.old keeper.new }
        ensures refused { RefusesNothing result }
    {
        if !self.commit_open {
            return Ok(());
        }
        let tables = keeper.load(alloc)?;
        let Some(last) = &self.last else {
            unreachable!();
        };
        self.is_sound = false;
        take_in_made(alloc, &mut self.table, &mut self.marks, last, &tables)?;
        self.commit_open = false;
        Ok(())
    }

    // The copy of a commit that stays when it moves into the table: none where commits aren't kept.
    fn copy_to_keep(&self, alloc: Global, commit: &HubCommit) -> Result<Option<HubCommit>, NoMemory>
        ensures { IfOk result (λ copy. copy ≡ copy_kept self.now.keeps commit.now) }
    {
        if !self.keeps {
            return Ok(None);
        }
        Ok(Some(commit.copy(alloc)?))
    }

    /// Hands a commit to the keeper, and takes it in where it was made. All memory is taken before, that of a copy too
    /// where commits are kept; else the commit is copied nowhere: it moves into the table, or stays beside it where the
    /// keeper failed.
    pub fn install<H: HubKeeper>(
        &mut self,
        alloc: Global,
        keeper: &mut H,
        commit: HubCommit,
    ) -> Result<(), HubError>
        requires fits { KeeperFits (H.stands_for keeper.old) self.old }
        requires settled { self.old.commit_open ≡ false }
        requires can { CanCommit self.old.kept commit }
        ensures fits { KeeperFits (H.stands_for keeper.new) self.new }
        ensures told { (after : KeptState) → IsStanding self.new after → (H.stands_for keeper.new after → H.stands_for keeper.old self.old.kept) × Installs commit result self.old.kept after }
        ensures handed { Handed commit result self.old self.new }
        ensures settled { LeavesOpen result self.new.commit_open }
        ensures cause { CountsFault (H.fault_count keeper.old) (H.fault_count keeper.new) result }
        ensures leads { H.leads keeper.old keeper.new }
        ensures refused { RefusesNothing result }
    {
        let copy = self.copy_to_keep(alloc, &commit)?;
        make_room(&mut self.table, &mut self.marks, &commit)?;
        match keeper.commit(alloc, &commit) {
            Ok(()) => {
                drop(replace(&mut self.last, copy));
                take_in(&mut self.table, &mut self.marks, commit);
                self.is_sound = false;
                Ok(())
            }
            Err(KeeperError::Failed) => {
                drop(copy);
                drop(self.last.replace(commit));
                self.commit_open = true;
                Err(HubError::Keeper)
            }
            Err(KeeperError::NoMemory) => {
                drop(copy);
                if self.keeps {
                    drop(self.last.replace(commit));
                } else {
                    drop(commit);
                }
                Err(HubError::NoMemory)
            }
        }
    }

    // Adds the version that a change leads to.
    fn add_version<H: HubKeeper>(
        &mut self,
        alloc: Global,
        keeper: &mut H,
        change: Change,
    ) -> Result<Published, HubError>
        requires fits { KeeperFits (H.stands_for keeper.old) self.old }
        requires settled { self.old.commit_open ≡ false }
        requires can { CanLead self.old.kept.versions change }
        ensures fits { KeeperFits (H.stands_for keeper.new) self.new }
        ensures told { (after : KeptState) → IsStanding self.new after → (H.stands_for keeper.new after → H.stands_for keeper.old self.old.kept) × Adopts (Ok (Some change)) result self.old.kept after }
        ensures works { Works result self.old self.new }
        ensures settled { LeavesOpen result self.new.commit_open }
        ensures cause { CountsFault (H.fault_count keeper.old) (H.fault_count keeper.new) result }
        ensures leads { H.leads keeper.old keeper.new }
    {
        let version = change.version;
        let commit = HubCommit {
            change: Some(change),
            mark: None,
        };
        match self.install(alloc, keeper, commit) {
            Ok(()) => Ok(Published::New { version }),
            Err(error) => Err(error),
        }
    }

    /// Makes what is due, where anything is: the next version, where a change is.
    pub fn adopt<H: HubKeeper>(
        &mut self,
        alloc: Global,
        keeper: &mut H,
        due: Result<Option<Change>, Refusal<PublishFault>>,
    ) -> Result<Published, HubError>
        requires fits { KeeperFits (H.stands_for keeper.old) self.old }
        requires settled { self.old.commit_open ≡ false }
        requires can { IfOk due (λ change. ForSome change (CanLead self.old.kept.versions)) }
        ensures fits { KeeperFits (H.stands_for keeper.new) self.new }
        ensures told { (after : KeptState) → IsStanding self.new after → (H.stands_for keeper.new after → H.stands_for keeper.old self.old.kept) × Adopts due result self.old.kept after }
        ensures works { Works result self.old self.new }
        ensures settled { LeavesOpen result self.new.commit_open }
        ensures cause { CountsFault (H.fault_count keeper.old) (H.fault_count keeper.new) result }
        ensures leads { H.leads keeper.old keeper.new }
    {
        match due {
            Ok(Some(change)) => self.add_version(alloc, keeper, change),
            Ok(None) => Ok(Published::Same {
                version: self.table.newest(),
            }),
            Err(Refusal::Fault(fault)) => Err(HubError::Refused(fault)),
            Err(Refusal::NoMemory) => Err(HubError::NoMemory),
        }
    }

    // Remembers, where it is known, that the newest version has no broken references.
    fn note_sound(&mut self, is_known: bool)
        requires { is_known ≡ true → IsSound (newest_kept self.old.kept.versions) }
        ensures { self.new ≡ self.old }
    {
        if is_known {
            self.is_sound = true;
        }
    }

    /// Publishes a set at a moment: the next version, where the set changes a row of the newest. Its rows move into the
    /// version.
    pub fn publish<H: HubKeeper>(
        &mut self,
        alloc: Global,
        keeper: &mut H,
        set: RosterSet,
        at: Moment,
    ) -> Result<Published, HubError>
        requires { KeeperFits (H.stands_for keeper.old) self.old }
        ensures fits { KeeperFits (H.stands_for keeper.new) self.new }
        ensures told { StandsFrom (H.stands_for keeper.old) (H.stands_for keeper.new) self.old self.new (MakesNext (λ version. Applies version set at) result) }
        // Of a hub with no commit left open, what it made is the last commit, if anything.
        ensures did { self.old.commit_open ≡ false → Did (MakesNext (λ version. Applies version set at)) (Err error.Keeper) result self.old self.new (H.fault_count keeper.old) (H.fault_count keeper.new) }
        ensures reloads { DidReload (MakesNext (λ version. Applies version set at)) (λ fault. Err fault) result self.old self.new (H.fault_count keeper.old) (H.fault_count keeper.new) }
        ensures keeps { self.new.keeps ≡ self.old.keeps }
        ensures settled { LeavesOpen result self.new.commit_open }
        ensures cause { CountsFault (H.fault_count keeper.old) (H.fault_count keeper.new) result }
        ensures leads { H.leads keeper.old keeper.new }
    {
        self.ready(alloc, keeper)?;
        let due = set_change_over(alloc, &self.table, self.is_sound, set, at);
        let answer = self.adopt(alloc, keeper, due);
        self.note_sound(answer.is_ok());
        answer
    }

    /// Gives each caller of a list what it asks for, and takes all other grants away, at a moment: the next version,
    /// where a grant of the newest changes.
    pub fn set_grants<H: HubKeeper>(
        &mut self,
        alloc: Global,
        keeper: &mut H,
        list: &GrantList,
        at: Moment,
    ) -> Result<Published, HubError>
        requires { KeeperFits (H.stands_for keeper.old) self.old }
        ensures fits { KeeperFits (H.stands_for keeper.new) self.new }
        ensures told { StandsFrom (H.stands_for keeper.old) (H.stands_for keeper.new) self.old self.new (MakesNext (λ version. GrantsMake version list.now at) result) }
        // Of a hub with no commit left open, what it made is the last commit, if anything.
        ensures did { self.old.commit_open ≡ false → Did (MakesNext (λ version. GrantsMake version list.now at)) (Err error.Keeper) result self.old self.new (H.fault_count keeper.old) (H.fault_count keeper.new) }
        ensures reloads { DidReload (MakesNext (λ version. GrantsMake version list.now at)) (λ fault. Err fault) result self.old self.new (H.fault_count keeper.old) (H.fault_count keeper.new) }
        ensures keeps { self.new.keeps ≡ self.old.keeps }
        ensures settled { LeavesOpen result self.new.commit_open }
        ensures cause { CountsFault (H.fault_count keeper.old) (H.fault_count keeper.new) result }
        ensures leads { H.leads keeper.old keeper.new }
    {
        self.ready(alloc, keeper)?;
        let due = grants_change(alloc, &self.table, list, at);
        self.adopt(alloc, keeper, due)
    }
}
