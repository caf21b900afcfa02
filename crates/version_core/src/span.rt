//! Two versions, and which rows changed between them.

ghost use Rattle.std.specs.Prelude.{◌≡◌, IfOk, map};
ghost use Rattle.roster_types.specs.Keys.{Ascends};
ghost use Rattle.version_core.specs.Spans.{AreSameBeside, key_in};

use crate::history::History;
use crate::view::{VersionView, histories_of_kind};
use roster_base::NoMemory;
use roster_texts::Id;
use roster_values::Kind;
use std::alloc::Global;
use std::marker::Model;

/// Two versions of a table, the second no older than the first. Which rows changed between them is told by their
/// histories: the rows aren't read. A clause sees both versions.
#[derive(Drop)]
pub struct Span<'a> {
    pub(crate) first: VersionView<'a>,
    pub(crate) last: VersionView<'a>,
    /// The number of the first version.
    pub(crate) from: u64,
    /// The number of the last version.
    pub(crate) to: u64,
    pub(crate) histories: &'a [History],
}

impl<'a> Model for Span<'a> {
    ghost use Rattle.version_core.specs.Spans.{Spanned};

    ghost Value = { Spanned };

    ghost use Rattle.version_core.specs.Spans.{span_of, IsSpan};

    ghost view = { span_of };

    ghost invariant = { IsSpan };
}

impl<'a> Span<'a> {
    /// The first of the versions.
    pub fn before(&self) -> &VersionView<'a>
        ensures { result.now ≡ self.now.before }
    {
        &self.first
    }

    /// The second of the versions.
    pub fn after(&self) -> &VersionView<'a>
        ensures { result.now ≡ self.now.after }
    {
        &self.last
    }

    /// The ids of the rows of a kind that changed, in their order: under every other id both versions have the same
    /// row, or none.
    pub fn changed_ids(&self, alloc: Global, kind: Kind) -> Result<Vec<&'a Id>, NoMemory>
        ensures order { IfOk result (λ v. Ascends (key_in kind) (map (λ id. id.now) v.items)) }
        ensures beside { IfOk result (λ v. AreSameBeside kind (map (λ id. id.now) v.items) self.now.before.rows self.now.after.rows) }
    {
        let (from, to) = (self.from, self.to);
        let histories = histories_of_kind(self.histories, kind);
        let mut ids = Vec::new(alloc);
        for history in histories {
            if !history.has_change(from, to) {
                continue;
            }
            ids.push(history.id())?;
        }
        Ok(ids)
    }
}
