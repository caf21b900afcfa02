//! A place for the publisher under the lock.

ghost use Rattle.std.specs.Prelude.{◌≡◌, Some, None, IsSome, IfOk, []};
ghost use Rattle.left_right.specs.Sides.{view};

use crate::entry::Entry;
use crate::history::Front;
use crate::naming::Naming;
use crate::publisher::Publisher;
use crate::shown::{HubReader, Noted, Sharing, Shown};
use crossbeam_utils::rule::Protocol;
use left_right::Absorb;
use roster_base::NoMemory;
use std::collections::LinkedList;
use std::marker::Model;
use std::mem::ManuallyDrop;

/// A publisher, or none inside a call. A lock's guard asks how its value is dropped, and a writer of `left_right` can't
/// be: so the publisher is kept as a value that is never dropped, and is taken out at the end.
pub struct Slot<N: Naming>
where
    Shown<N>: Absorb<Noted<N>, State = LinkedList<Entry>>,
    Sharing<N>: Protocol<Shown<N>, LinkedList<Entry>>,
{
    kept: Option<ManuallyDrop<Publisher<N>>>,
}

impl<N: Naming> Model for Slot<N>
where
    Shown<N>: Absorb<Noted<N>, State = LinkedList<Entry>>,
    Sharing<N>: Protocol<Shown<N>, LinkedList<Entry>>,
{
    ghost use Rattle.std.specs.Prelude.{Option, option_map};
    ghost use Rattle.hub_history.specs.Published.{Published};

    ghost Value = { Option Published };

    ghost view = { λ s. option_map (λ m. m.value) s.kept };
}

impl<N: Naming> Slot<N> {
    /// A slot with a publisher.
    pub fn new(publisher: Publisher<N>) -> Slot<N>
        ensures { result ≡ Some publisher }
    {
        // SAFETY: a publisher that is never dropped is lost and does no harm; `into_inner` gives this one back.
        Slot {
            kept: Some(unsafe { ManuallyDrop::new_unchecked(publisher) }),
        }
    }

    /// Takes the publisher out.
    pub fn take(&mut self) -> Publisher<N>
        requires { IsSome self.old }
        ensures taken { self.old ≡ Some result }
        ensures left { self.new ≡ None }
    {
        let Some(kept) = self.kept.take() else {
            unreachable!();
        };
        ManuallyDrop::into_inner(kept)
    }

    /// Puts the publisher back.
    pub fn put(&mut self, publisher: Publisher<N>)
        requires { self.old ≡ None }
        ensures { self.new ≡ Some publisher }
    {
        // SAFETY: as in `new`.
        let kept = unsafe { ManuallyDrop::new_unchecked(publisher) };
        match self.kept.replace(kept) {
            None => (),
            Some(_) => unreachable!(),
        }
    }

    /// A reader that has seen nothing, and a front that has none.
    pub fn place(&self) -> Result<(HubReader<N>, Front<N>), NoMemory>
        requires { IsSome self.now }
        ensures { IfOk result (λ r. (view r.0.place ≡ []) × (r.1 ≡ [])) }
    {
        match &self.kept {
            Some(publisher) => publisher.place(),
            None => unreachable!(),
        }
    }

    /// The publisher, at the end.
    pub fn into_inner(self) -> Publisher<N>
        requires { IsSome self }
        ensures { self ≡ Some result }
    {
        let Slot { kept } = self;
        let Some(kept) = kept else {
            unreachable!();
        };
        ManuallyDrop::into_inner(kept)
    }
}
