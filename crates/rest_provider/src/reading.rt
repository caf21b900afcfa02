//! A read of one version, by a caller who is known.

ghost use Rattle.std.specs.Prelude.{◌≡◌, ◌≤◌, true, false, IfOk, IfSome, Err, Some, option_map};
ghost use Rattle.filter_grammar.specs.Queries.{query_of};
ghost use Rattle.hub_spec.specs.requests.Requests.{query_or_cause, wanted_by};
ghost use Rattle.hub_spec.specs.rules.Answers.{write_result};
ghost use Rattle.hub_spec.specs.rules.Checks as spec;
ghost use Rattle.hub_spec.specs.rules.Reads as reads;
ghost use Rattle.hub_spec.specs.rules.Wanted.{access_of, is_good_mark};
ghost use Rattle.grant_scopes.specs.Opens as opening;
ghost use Rattle.hub_spec.specs.views.Lists.{is_single, kind_of_path};
ghost use Rattle.hub_spec.specs.views.Seen.{seen};
ghost use Rattle.rest_provider.specs.Replies.{IsReadOf, entry, query_read};
ghost use Rattle.hub_spec.specs.views.Deltas.{kind_delta, page_of_delta};
ghost use Rattle.version_core.specs.Version.{newest_of, oldest_of};
ghost use Rattle.rest_provider.specs.Shown.{contents_shown};
ghost use Rattle.roster_base.specs.Reading.{Gives};
ghost use Rattle.roster_base.specs.declared.refusal.Refusal.TheVariants as refusal;
ghost use Rattle.roster_texts.specs.Results.{found_or};
ghost use Rattle.status_info.specs.declared.cause.Cause.TheVariants as cause;
ghost use Rattle.version_core.specs.Changes.{rows_of};
ghost use Rattle.version_core.specs.HubStates.{HubState, newest_number};
ghost use Rattle.version_core.specs.declared.grant_row.GrantRow.{GrantRow};

use crate::checks::{access_of, is_good_mark};
use crate::contents::{Contents, delta_contents, one_contents, page_contents};
use crate::refusals::{Stop, pin_refused, refused_at};
use filter_grammar::{Query, read_query};
use gradebook_core::pages::{SeenRows, base_of, delta_page, version_page};
use grant_scopes::{Grant, opens};
use rest_paths::{Path, Route};
use roster_base::{NoMemory, Refusal};
use roster_values::Kind;
use status_info::{Cause, Reply, Request};
use std::alloc::Global;
use version_core::span::Span;
use version_core::table::Table;
use version_core::view::VersionView;

/// A request for a path, who makes it, the number of the version that it reads, or that a write is told of, and that of
/// the oldest which its caller may read.
#[derive(Clone, Copy)]
pub struct Reading<'a> {
    pub request: &'a Request,
    pub path: &'a Path,
    pub grant: &'a Grant,
    pub version: u64,
    pub oldest: u64,
}

impl<'a> Reading<'a> {
    // The kind of the objects that the path lists or names.
    fn kind(self) -> Kind
        ensures { result ≡ kind_of_path self.entry.path.now }
    {
        self.path.route().lists().kind()
    }

    // The refusal with this cause.
    fn refused<T: Drop>(self, alloc: Global, cause: Cause) -> Result<T, Stop>
        ensures { result ≡ Err (refusal.Fault (spec.refused_at (wanted_by self.entry.request.now) self.entry.version cause)) }
    {
        Err(Refusal::Fault(refused_at(alloc, self.request, self.version, cause)))
    }

    // The check of the scopes.
    fn opened(self, alloc: Global) -> Result<(), Stop>
        ensures { Gives (λ _. true) result
            (spec.check (opening.opens self.entry.grant.now.scopes (kind_of_path self.entry.path.now) (access_of (wanted_by self.entry.request.now).verb))
            (spec.refused_at (wanted_by self.entry.request.now) self.entry.version cause.ScopeMissing)) }
    {
        if opens(self.grant.scopes, self.kind(), access_of(self.request.verb)) {
            Ok(())
        } else {
            self.refused(alloc, Cause::ScopeMissing)
        }
    }

    // The query that the request writes, or the refusal for its first fault.
    fn query(self, alloc: Global) -> Result<Query, Stop>
        ensures query { Gives (λ q. q) result
            (spec.query_or (wanted_by self.entry.request.now) self.entry.version (query_or_cause (query_of (kind_of_path self.entry.path.now) self.entry.request.now.query))) }
        ensures limit { IfOk result (λ q. 1 ≤ q.limit) }
    {
        match read_query(alloc, self.kind(), self.request.query.as_str()) {
            Ok(query) => Ok(query),
            Err(Refusal::Fault(fault)) => self.refused(alloc, fault.cause()),
            Err(Refusal::NoMemory) => Err(Refusal::NoMemory),
        }
    }

    // The check of the mark.
    fn marked(self, alloc: Global) -> Result<(), Stop>
        ensures { Gives (λ _. true) result
            (spec.check (is_good_mark (wanted_by self.entry.request.now).mark) (spec.refused_at (wanted_by self.entry.request.now) self.entry.version cause.BadMark)) }
    {
        if is_good_mark(self.request.mark) {
            Ok(())
        } else {
            self.refused(alloc, Cause::BadMark)
        }
    }

    // The check of the base, where there is one: the caller may read it, and it isn't newer than the version.
    fn based(self, alloc: Global, base: Option<u64>) -> Result<(), Stop>
        ensures base { (state : HubState) (by : GrantRow) → spec.first_open state by ≡ self.entry.oldest
            → Gives (λ _. true) result (spec.base_checked state by (wanted_by self.entry.request.now) self.entry.version base) }
        ensures within { IfOk result (λ _. IfSome base (λ b. (self.entry.oldest ≤ b) × (b ≤ self.entry.version))) }
    {
        let Some(base) = base else {
            return Ok(());
        };
        if self.oldest <= base && base <= self.version {
            return Ok(());
        }
        let reply = pin_refused(alloc, self.request, self.version, self.oldest);
        Err(Refusal::Fault(reply))
    }

    /// The checks of a write that stand before its verdict: scope, mark.
    pub fn may_write(self, alloc: Global) -> Result<(), Stop>
        ensures { (state : HubState) (by : GrantRow) → newest_number state ≡ self.entry.version → by.grant ≡ self.entry.grant.now
            → Gives (λ _. true) result (write_result state (wanted_by self.entry.request.now) (entry self.entry.path.now by)) }
    {
        self.opened(alloc)?;
        self.marked(alloc)
    }

    // The seen object that the path names.
    fn object(
        self,
        alloc: Global,
        view: &VersionView<'_>,
        query: &Query,
    ) -> Result<Option<Contents>, NoMemory>
        requires { is_single self.path.now.route ≡ true }
        ensures { IfOk result (λ c. option_map contents_shown c
            ≡ reads.contents_of (seen self.entry.grant.now.schools (rows_of view.now.rows)) self.entry.version self.entry.path.now query.now) }
    {
        let seen = SeenRows::new(&self.grant.schools, view);
        one_contents(alloc, &seen, self.path, query)
    }

    // The page of what is seen of the path's list.
    fn page(
        self,
        alloc: Global,
        view: &VersionView<'_>,
        query: &Query,
    ) -> Result<Option<Contents>, NoMemory>
        requires limit { 1 ≤ query.now.limit }
        requires list { is_single self.path.now.route ≡ false }
        ensures { IfOk result (λ c. option_map contents_shown c
            ≡ reads.contents_of (seen self.entry.grant.now.schools (rows_of view.now.rows)) self.entry.version self.entry.path.now query.now) }
    {
        match version_page(
            alloc,
            view,
            &self.grant.schools,
            self.version,
            self.path,
            query,
        )? {
            Some(page) => Ok(Some(page_contents(alloc, self.kind(), query, page)?)),
            None => Ok(None),
        }
    }

    // What the path shows of the seen rows of one version.
    fn whole_contents(
        self,
        alloc: Global,
        view: &VersionView<'_>,
        query: &Query,
    ) -> Result<Option<Contents>, NoMemory>
        requires { 1 ≤ query.now.limit }
        ensures { IfOk result (λ c. option_map contents_shown c
            ≡ reads.contents_of (seen self.entry.grant.now.schools (rows_of view.now.rows)) self.entry.version self.entry.path.now query.now) }
    {
        match self.path.route() {
            Route::One(_) => self.object(alloc, view, query),
            _ => self.page(alloc, view, query),
        }
    }

    // What differs of the seen rows between two versions.
    fn difference(self, alloc: Global, span: &Span<'_>, query: &Query) -> Result<Contents, NoMemory>
        requires { 1 ≤ query.now.limit }
        ensures { IfOk result (λ c. contents_shown c ≡ reads.delta_shown (kind_of_path self.entry.path.now) (page_of_delta self.entry.path.now query.now self.entry.version
            (kind_delta (kind_of_path self.entry.path.now) (seen self.entry.grant.now.schools (rows_of span.now.before.rows)) (seen self.entry.grant.now.schools (rows_of span.now.after.rows))))) }
    {
        let schools = &self.grant.schools;
        let page = delta_page(alloc, span, schools, self.version, self.path, query)?;
        delta_contents(alloc, self.kind(), page)
    }

    // What the path shows of the versions.
    fn contents(
        self,
        alloc: Global,
        table: &Table,
        query: &Query,
        base: Option<u64>,
    ) -> Result<Option<Contents>, NoMemory>
        requires limit { 1 ≤ query.now.limit }
        requires oldest { (oldest_of table.now).number ≤ self.version }
        requires newest { self.version ≤ (newest_of table.now).number }
        requires base { IfSome base (λ b. ((oldest_of table.now).number ≤ b) × (b ≤ self.version)) }
        ensures { (state : HubState) (by : GrantRow) → IsReadOf table.now state → by.grant ≡ self.entry.grant.now
            → IfOk result (λ c. option_map contents_shown c ≡ reads.contents_at state (entry self.entry.path.now by) self.entry.version query.now base) }
    {
        match base {
            None => self.whole_contents(alloc, &table.rows_at(self.version), query),
            Some(base) => {
                let span = table.span(base, self.version);
                Ok(Some(self.difference(alloc, &span, query)?))
            }
        }
    }

    // What the path shows of the versions, or the refusal where it names an object that isn't seen.
    fn found(
        self,
        alloc: Global,
        table: &Table,
        query: &Query,
        base: Option<u64>,
    ) -> Result<Contents, Stop>
        requires limit { 1 ≤ query.now.limit }
        requires oldest { (oldest_of table.now).number ≤ self.version }
        requires newest { self.version ≤ (newest_of table.now).number }
        requires base { IfSome base (λ b. ((oldest_of table.now).number ≤ b) × (b ≤ self.version)) }
        ensures { (state : HubState) (by : GrantRow) → IsReadOf table.now state → by.grant ≡ self.entry.grant.now
            → Gives contents_shown result (found_or (spec.refused_at (wanted_by self.entry.request.now) self.entry.version cause.NoSuchObject)
            (reads.contents_at state (entry self.entry.path.now by) self.entry.version query.now base)) }
    {
        match self.contents(alloc, table, query, base)? {
            Some(contents) => Ok(contents),
            None => self.refused(alloc, Cause::NoSuchObject),
        }
    }

    // The reply with what was found.
    fn shown(self, alloc: Global, query: &Query, contents: Contents) -> Reply
        ensures { result ≡ reads.shown (wanted_by self.entry.request.now) self.entry.version query.now (contents_shown contents) }
    {
        let mut reply = refused_at(alloc, self.request, self.version, Cause::Done);
        reply.body = contents.body;
        reply.total = contents.total;
        reply.links = contents.links;
        reply.warnings = query.warnings;
        reply
    }

    // The reply once the query is known: base, mark and object are checked.
    fn answer_query(self, alloc: Global, table: &Table, query: &Query) -> Result<Reply, Stop>
        requires limit { 1 ≤ query.now.limit }
        requires oldest { (oldest_of table.now).number ≤ self.version }
        requires newest { self.version ≤ (newest_of table.now).number }
        requires open { (oldest_of table.now).number ≤ self.oldest }
        ensures { (state : HubState) (by : GrantRow) → IsReadOf table.now state → by.grant ≡ self.entry.grant.now → spec.first_open state by ≡ self.entry.oldest
            → Gives (λ r. r) result (query_read state (wanted_by self.entry.request.now) (entry self.entry.path.now by) self.entry.version query.now) }
    {
        let base = base_of(self.path, query);
        self.based(alloc, base)?;
        self.marked(alloc)?;
        let contents = self.found(alloc, table, query, base)?;
        Ok(self.shown(alloc, query, contents))
    }

    /// The reply that answers the read of the version, or the first check that it fails: scope, query, base, mark,
    /// object.
    #[tactic(auto, unfolding(hub_spec::specs::rules::Reads::read_at))]
    pub fn answer(self, alloc: Global, table: &Table) -> Result<Reply, Stop>
        requires oldest { (oldest_of table.now).number ≤ self.version }
        requires newest { self.version ≤ (newest_of table.now).number }
        requires open { (oldest_of table.now).number ≤ self.oldest }
        ensures { (state : HubState) (by : GrantRow) → IsReadOf table.now state → by.grant ≡ self.entry.grant.now → spec.first_open state by ≡ self.entry.oldest
            → (wanted_by self.entry.request.now).path ≡ Some self.entry.path.now
            → Gives (λ r. r) result (reads.read_at state (wanted_by self.entry.request.now) (entry self.entry.path.now by) self.entry.version) }
    {
        self.opened(alloc)?;
        let query = self.query(alloc)?;
        let answered = self.answer_query(alloc, table, &query);
        drop(query);
        answered
    }
}
