//! What holds of the deltas that a consumer takes. Each function here does nothing; its contract is a law.

ghost use Rattle.std.specs.Prelude.{◌≡◌, ◌++◌, ◌<◌, ℕ, ℤ, true, List, length};
ghost use Rattle.std.specs.Str.{is_utf8};
ghost use Rattle.consumer_deltas.specs.DeltaFits.{fits};
ghost use Rattle.consumer_deltas.specs.DeltaGathering.{AreFirst, IsPartOf};
ghost use Rattle.consumer_deltas.specs.DeltaJudging.{Sofar, count_in, delta_judged, with_page};
ghost use Rattle.consumer_deltas.specs.DeltaRequests.{page_asked};
ghost use Rattle.consumer_deltas.specs.declared.gathered.Entries.{Entries};
ghost use Rattle.consumer_deltas.specs.declared.judging.DeltaAct.TheVariants as act;
ghost use Rattle.consumer_deltas.specs.declared.judging.Place.{Place};
ghost use Rattle.exchange_link.specs.DeltaPages.{delta_page_request};
ghost use Rattle.exchange_link.specs.DeltaSayings.{TellsFrom};
ghost use Rattle.exchange_link.specs.Pages.{Page, asked_by};
ghost use Rattle.http_wire.specs.Replies.{body_text};
ghost use Rattle.http_wire.specs.Seen.{seen_of};
ghost use Rattle.http_wire.specs.declared.reply_reading.WireReply.{WireReply};
ghost use Rattle.hub_spec.specs.requests.PageRequests.{CanAsk, query_bound};
ghost use Rattle.hub_spec.specs.requests.Requests.{AnswersRequest};
ghost use Rattle.hub_spec.specs.rules.Growth.{Grew};
ghost use Rattle.hub_spec.specs.rules.States.{IsHub};
ghost use Rattle.hub_spec.specs.views.Cuts.{list_in};
ghost use Rattle.hub_spec.specs.views.Deltas.{delta};
ghost use Rattle.hub_spec.specs.views.Pages.{slice};
ghost use Rattle.roster_types.specs.Keys.{Ascends, row_key};
ghost use Rattle.roster_types.specs.Records.{Record};
ghost use Rattle.roster_values.specs.declared.kind.Kind.{Kind};
ghost use Rattle.row_deltas.specs.Deltas.{AreOf, delta_of, ids_gone, merged, rows_put};
ghost use Rattle.row_deltas.specs.declared.entry.DeltaEntry.{DeltaEntry};
ghost use Rattle.status_info.specs.declared.reply.Reply.{Reply};
ghost use Rattle.status_info.specs.declared.request.Echo.{Echo};
ghost use Rattle.version_core.specs.HubStates.{HubState};
ghost use Rattle.version_core.specs.Version.{IsVersion};
ghost use Rattle.version_core.specs.declared.change.BaseVersion.{BaseVersion};

/// A request for a page of what differs, as a hub answers it, tells the consumer of that page, or why there is none.
pub fn an_answer_tells_of_the_delta()
    ensures { (state : HubState) → IsHub state → (page : Page) (base : ℕ) → CanAsk (asked_by page) → base < query_bound → (echo : Echo) (at : ℤ) (reply : Reply) (left : HubState) → is_utf8 (body_text reply) ≡ true
        → AnswersRequest state (delta_page_request page base echo) at reply left → TellsFrom state page base (seen_of reply) }
{}

/// What is gone by a delta was there, and isn't put.
pub fn a_delta_fits_its_old_rows()
    ensures { (kind : Kind) (old new : List Record) → AreOf kind old → AreOf kind new → Ascends row_key old → Ascends row_key new
        → fits kind old (rows_put (delta_of kind old new)) (ids_gone (delta_of kind old new)) ≡ true }
{}

/// A page that a hub tells, and that is taken, is a part of what differs between the cuts of the base and of the pin.
pub fn a_told_page_is_a_part_of_the_delta()
    ensures { (state later : HubState) → Grew state later → (token : List ℕ) (place : Place) (sofar : Sofar) (w : WireReply) (pin : ℕ) (page : Entries) (total : ℕ)
        → delta_judged place sofar w ≡ act.Take pin page total → TellsFrom state (page_asked token place (count_in sofar)) place.base w → IsPartOf later token place sofar pin page total }
{}

/// With those that came before, the entries of a page that is taken fit what is held.
pub fn a_page_that_is_taken_fits_what_is_held()
    ensures { (place : Place) (sofar : Sofar) (w : WireReply) (pin : ℕ) (page : Entries) (total : ℕ)
        → delta_judged place sofar w ≡ act.Take pin page total → fits place.kind sofar.held (sofar.puts ++ page.puts) (sofar.gone ++ page.gone) ≡ true }
{}

/// A part of a delta that follows its first entries makes more first entries with them.
pub fn parts_join_to_the_first_entries()
    ensures { (sofar : Sofar) (page : Entries) (total limit : ℕ) (all : List DeltaEntry) → AreFirst sofar all
        → page.puts ≡ rows_put (slice limit (count_in sofar) all) → page.gone ≡ ids_gone (slice limit (count_in sofar) all) → AreFirst (with_page sofar page total) all }
{}

/// The first entries of a delta, where they are as many as it has, make the list at the pin of the list at the base.
pub fn a_whole_delta_leads_to_the_pin()
    ensures { (before after : BaseVersion) → IsVersion before → IsVersion after → (token : List ℕ) (kind : Kind) (sofar : Sofar)
        → AreFirst sofar (delta before after token kind) → count_in sofar ≡ length (delta before after token kind) → merged (list_in before token kind) sofar.puts sofar.gone ≡ list_in after token kind }
{}
