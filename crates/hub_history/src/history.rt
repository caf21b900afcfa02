//! The one history, which exists in the proofs alone: beginnings of it that were seen, and the word that says how long
//! it is.

ghost use Rattle.std.specs.Prelude.{◌≡◌, ◌+◌, ◌==◌, ◌<◌, ◌^◌, ◌++◌, ◌∷◌, ◌⊎◌, [], length, MatchBool, true};
ghost use mathlib.Core.List.{IsPrefix};
ghost use Rattle.hub_history.specs.Rules.{head_of};

use crate::entry::Entry;
use crate::naming::Naming;
use logbook::{Gain, Offer, Plain, Play, Rule, Seen, Start, Word};
use std::marker::{Model, PhantomData};

/// The rule of the history: its word says how long it is.
pub struct Law;

impl Rule<Entry, u64> for Law {
    ghost use Rattle.std.specs.Prelude.{[]};
    ghost use base.Fml.{ftrue};
    ghost use Rattle.hub_history.specs.Rules.{IsKept};

    ghost holds = { λ cells log. IsKept cells log };

    ghost first = { [] };

    ghost hinted = { λ n log. Unit {0} };

    ghost shows = { λ log. [] };

    ghost keeps = { λ names log. ftrue };

    ghost moves = { λ ask before after answer. Unit {0} };
}

/// What a caller gains by a step beside what it sees: nothing.
pub struct Nothing;

impl Gain<Entry, u64> for Nothing {
    ghost use base.Fml.{ftrue};

    ghost after = { λ names about answer. ftrue };
}

/// A step that adds an entry.
pub struct Add;

impl Play<Entry, u64> for Add {
    ghost use Rattle.hub_history.specs.Rules.{Adds};

    ghost then = { Adds };
}

impl Plain<Entry, Entry, u64> for Add {
    ghost use Rattle.std.specs.Prelude.{None};

    ghost ask = { λ entry. entry };

    ghost state = { λ entry. None };
}

/// An empty history, which has no name yet.
#[derive(Drop)]
pub struct Opened {
    head: Word<Entry, u64, Law>,
    pub seen: Seen<Entry, u64, Law>,
    pub ghost empty: { seen.log ≡ [] },
    pub ghost head_is: { head ≡ head_of seen.book },
}

impl Opened {
    /// An empty history.
    pub fn new() -> Opened {
        let (seen, mut first, _second) = Seen::open(Start::alone(), 0, 0);
        Opened {
            head: Word::tracked(0, &mut first),
            seen,
        }
    }

    /// The history under a name, and the front that has seen nothing.
    pub fn named<N: Naming>(self) -> (Head<N>, Front<N>)
        requires { self.seen.book ≡ N.book }
        ensures { result.1 ≡ [] }
    {
        let Opened { head, seen } = self;
        (
            Head {
                head,
                of: PhantomData,
            },
            Front {
                count: 0,
                seen,
                of: PhantomData,
            },
        )
    }
}

/// The length of the history.
#[derive(Drop)]
pub struct Head<N: Naming> {
    head: Word<Entry, u64, Law>,
    of: PhantomData<N>,
    ghost head_is: { head ≡ head_of N.book },
}

/// A beginning of the history that was seen. Contracts see it as its entries.
#[derive(Drop)]
pub struct Front<N: Naming> {
    count: u64,
    seen: Seen<Entry, u64, Law>,
    of: PhantomData<N>,
}

impl<N: Naming> Model for Front<N> {
    ghost use Rattle.std.specs.Prelude.{◌≡◌, List, length};
    ghost use Rattle.hub_history.specs.declared.entry.Entry.{Entry};

    ghost Value = { List Entry };

    ghost view = { λ f. f.seen.log };

    ghost invariant = { λ f. (f.count ≡ length f.seen.log) × (f.seen.book ≡ N.book) };
}

impl<N: Naming> Front<N> {
    /// How many entries it has.
    pub fn len(&self) -> u64
        ensures { result ≡ length self.now }
    {
        self.count
    }

    /// A copy.
    pub fn again(&self) -> Front<N>
        ensures { result ≡ self.now }
    {
        Front {
            count: self.count,
            seen: self.seen.again(),
            of: PhantomData,
        }
    }

    /// The longer of two fronts, which the other begins.
    pub fn longer(&self, other: &Front<N>) -> Front<N>
        ensures one { (result ≡ self.now) ⊎ (result ≡ other.now) }
        ensures this { IsPrefix self.now result }
        ensures that { IsPrefix other.now result }
    {
        let mut both = self.seen.again();
        both.learn(&other.seen);
        if self.count < other.count {
            other.again()
        } else {
            self.again()
        }
    }

    /// Of two fronts the one that is no longer begins the other.
    pub fn begins(&self, other: &Front<N>) -> bool
        ensures { MatchBool result (IsPrefix self.now other.now) (length other.now < length self.now) }
    {
        let mut both = self.seen.again();
        both.learn(&other.seen);
        self.count <= other.count
    }

    /// Whether the other front is this one with one entry more.
    pub fn is_followed_by(&self, other: &Front<N>) -> bool
        ensures longer { result ≡ (length self.now + 1 == length other.now) }
        ensures begins { result ≡ true → IsPrefix self.now other.now }
    {
        other.count > self.count && other.count - self.count == 1 && self.begins(other)
    }

    /// Adds an entry to all that was seen, and says whether it did.
    pub fn add(&mut self, head: &Head<N>, entry: &Entry) -> bool
        requires { length self.old < 2 ^ 62 }
        ensures { MatchBool result (self.new ≡ self.old ++ entry.now ∷ []) (IsPrefix self.old self.new) }
    {
        let mut offer: Offer<Entry, u64, Law, Nothing> = self
            .seen
            .plain::<Nothing, Entry, Add>(entry);
        let mut pen = self.seen.no_pen();
        let count = self.count;
        let found = head
            .head
            .compare_exchange::<Add, Nothing>(
                count,
                count + 1,
                &mut self.seen,
                &mut offer,
                &mut pen,
            );
        self.count = if found == count { count + 1 } else { found };
        found == count
    }
}
