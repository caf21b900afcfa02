//! What a synchronisation, an outbox, a publication, a server and the making of a district are asked to do.

ghost use Rattle.std.specs.Prelude.{◌≡◌, ◌<◌, ◌≤◌, true};
ghost use Rattle.hub_words.specs.Tasks.{largest_count};
ghost use Rattle.keeper_memory.specs.copy.Copies.{IsGradebook, largest_limit, largest_tries};
ghost use Rattle.rest_paths.specs.Routes.{is_gradebook};

use roster_base::{Items, Text};
use roster_texts::{Id, Name, Token};
use roster_values::Kind;
use std::marker::Model;

/// The token under which the rows are asked for, how many rows a page has at most, 1 to 1,000, and how often a request
/// is tried, 1 to 100.
#[derive(Drop)]
pub struct SyncTask {
    token: Token,
    limit: u32,
    tries: u32,
}

impl Model for SyncTask {
    ghost use Rattle.std.specs.Prelude.{◌<◌, ◌≤◌};
    ghost use Rattle.hub_words.specs.Tasks.{Task};
    ghost use Rattle.keeper_memory.specs.copy.Copies.{largest_limit, largest_tries};

    ghost Value = { Task };

    ghost view = { λ t. record { token = t.token; limit = t.limit; tries = t.tries } };

    ghost invariant = { λ t. (0 < t.limit) × (t.limit ≤ largest_limit) × (0 < t.tries) × (t.tries ≤ largest_tries) };
}

impl SyncTask {
    /// A synchronisation under this token.
    pub fn new(token: Token, limit: u32, tries: u32) -> SyncTask
        requires limit { (0 < limit) × (limit ≤ largest_limit) }
        requires tries { (0 < tries) × (tries ≤ largest_tries) }
        ensures { result ≡ record { token = token; limit = limit; tries = tries } }
    {
        SyncTask {
            token,
            limit,
            tries,
        }
    }

    /// The token under which the rows are asked for.
    pub fn token(&self) -> &Token
        ensures { result.now ≡ self.now.token }
    {
        &self.token
    }

    /// How many rows a page has at most.
    pub fn limit(&self) -> u32
        ensures value { result ≡ self.now.limit }
        ensures bounds { (0 < result) × (result ≤ largest_limit) }
    {
        self.limit
    }

    /// How often a request is tried.
    pub fn tries(&self) -> u32
        ensures value { result ≡ self.now.tries }
        ensures bounds { (0 < result) × (result ≤ largest_tries) }
    {
        self.tries
    }
}

/// The token under which the writes of an outbox are sent, and how often a request is tried, 1 to 100.
#[derive(Drop)]
pub struct SendTask {
    token: Token,
    tries: u32,
}

impl Model for SendTask {
    ghost use Rattle.std.specs.Prelude.{◌<◌, ◌≤◌};
    ghost use Rattle.hub_words.specs.Tasks.{Sending};
    ghost use Rattle.keeper_memory.specs.copy.Copies.{largest_tries};

    ghost Value = { Sending };

    ghost view = { λ t. record { token = t.token; tries = t.tries } };

    ghost invariant = { λ t. (0 < t.tries) × (t.tries ≤ largest_tries) };
}

impl SendTask {
    /// Sending under this token.
    pub fn new(token: Token, tries: u32) -> SendTask
        requires tries { (0 < tries) × (tries ≤ largest_tries) }
        ensures { result ≡ record { token = token; tries = tries } }
    {
        SendTask { token, tries }
    }

    /// The token under which the writes are sent.
    pub fn token(&self) -> &Token
        ensures { result.now ≡ self.now.token }
    {
        &self.token
    }

    /// How often a request is tried.
    pub fn tries(&self) -> u32
        ensures value { result ≡ self.now.tries }
        ensures bounds { (0 < result) × (result ≤ largest_tries) }
    {
        self.tries
    }
}

/// How many schools a district is made of, 1 to 200.
#[derive(Drop)]
pub struct MakeTask {
    schools: u32,
}

impl Model for MakeTask {
    ghost use Rattle.std.specs.Prelude.{◌<◌, ◌≤◌, ℕ};
    ghost use Rattle.hub_words.specs.Tasks.{largest_count};

    ghost Value = { ℕ };

    ghost view = { λ t. t.schools };

    ghost invariant = { λ t. (0 < t.schools) × (t.schools ≤ largest_count) };
}

impl MakeTask {
    /// The making of a district of so many schools.
    pub fn new(schools: u32) -> MakeTask
        requires { (0 < schools) × (schools ≤ largest_count) }
        ensures { result ≡ schools }
    {
        MakeTask { schools }
    }

    /// How many schools the district has.
    pub fn schools(&self) -> u32
        ensures value { result ≡ self.now }
        ensures bounds { (0 < result) × (result ≤ largest_count) }
    {
        self.schools
    }
}

/// Whether callers write rows of the kind.
pub fn is_gradebook(kind: Kind) -> bool
    ensures value { result ≡ is_gradebook kind }
    ensures writes { result ≡ true → IsGradebook kind }
{
    matches!(kind, Kind::Categories | Kind::LineItems | Kind::Results)
}

/// An object that callers write: a kind of the gradebook, and an id.
#[derive(Drop)]
pub struct GradebookObject {
    kind: Kind,
    id: Id,
}

impl Model for GradebookObject {
    ghost use Rattle.keeper_memory.specs.copy.Copies.{IsGradebook};
    ghost use Rattle.hub_words.specs.Tasks.{Object};

    ghost Value = { Object };

    ghost view = { λ o. record { kind = o.kind; id = o.id } };

    ghost invariant = { λ o. IsGradebook o.kind };
}

impl GradebookObject {
    /// The object of this kind with this id.
    pub fn new(kind: Kind, id: Id) -> GradebookObject
        requires { IsGradebook kind }
        ensures { result ≡ record { kind = kind; id = id } }
    {
        GradebookObject { kind, id }
    }

    /// The kind of the object.
    pub fn kind(&self) -> Kind
        ensures value { result ≡ self.now.kind }
        ensures writes { IsGradebook result }
    {
        self.kind
    }

    /// The id of the object.
    pub fn id(&self) -> &Id
        ensures { result.now ≡ self.now.id }
    {
        &self.id
    }
}

/// A feed, and the folder in which the files of its set lie.
#[derive(Drop)]
pub struct Feed {
    pub name: Name,
    pub dir: Text,
}

/// What a server does: so many connections are served at each address, and beside them the set of each feed is
/// published once.
#[derive(Drop)]
pub struct ServeTask {
    /// How many connections are served at each address, one after another.
    pub connections: u32,
    /// Where it listens: a host and a port each.
    pub addresses: Items<Text>,
    /// The feeds whose sets are published.
    pub feeds: Items<Feed>,
}
