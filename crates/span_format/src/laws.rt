//! Laws on the items of a hub's state in format 2. Each function here does nothing; its contract is a law.

ghost use Rattle.std.specs.Prelude.{◌≡◌, ◌<◌, ◌^◌, ◌&&◌, [], ◌∷◌, ℕ, List, map};
ghost use Rattle.std.specs.List.{AllByRecursion};
ghost use Rattle.std.specs.Ordering.{is_eq, is_lt, nat_cmp};
ghost use Rattle.item_maps.specs.Edits.{after};
ghost use Rattle.item_maps.specs.Items.{Items, is_between, listed, no_items};
ghost use Rattle.keeper_memory.specs.Commits.{CanCommit, with_commit};
ghost use Rattle.keeper_memory.specs.Kept.{KeptState, kept_by};
ghost use Rattle.keeper_memory.specs.declared.hub_commit.HubCommit.{HubCommit as Commit};
ghost use Rattle.roster_types.specs.Keys.{Key, key_cmp};
ghost use Rattle.version_core.specs.Tables.{AreTables};
ghost use Rattle.version_core.specs.declared.change.Change.{Change};
ghost use Rattle.version_core.specs.declared.hub_tables.HubTables.{HubTables};
ghost use Rattle.hub_format.specs.Areas.{names_area, spans_area};
ghost use Rattle.hub_format.specs.Format.{Keep, listed_of, new_tables, where_label};
ghost use Rattle.hub_format.specs.Pieces.{HasNoZero, labels_end};
ghost use Rattle.span_format.specs.Edits.{edits, first_edits, turn_edits};
ghost use Rattle.span_format.specs.Format.{AreSpans, FitSpans, FitsSpanCommit, KeepSpans, Span, items_in, own_names};
ghost use Rattle.span_format.specs.Format.{own_spans, span_entry, span_label};
ghost use Rattle.span_format.specs.Reading.{came_within};

/// A clear of what a row's place had before a version takes exactly the spans of its kind and id that came before.
pub fn a_clear_takes_earlier_spans()
    ensures { (k l : Key) (version n : ℕ) → HasNoZero k.1 → HasNoZero l.1 → version < 2 ^ 64 → n < 2 ^ 64
        → is_between (span_label k 0) (span_label k version) (span_label l n)
        ≡ (is_eq (key_cmp l k) && is_lt (nat_cmp n version)) }
{}

/// Where items keep a state, the edits of a commit lead to items that keep the state after it.
pub fn edits_keep_the_state_after_a_commit()
    ensures { (items : Items) (kept : KeptState) (commit : Commit) (keep : KeepSpans items kept) → CanCommit kept commit
        → FitsSpanCommit commit
        → KeepSpans (after (edits keep.tables commit) items) (with_commit kept commit) }
{}

/// The first edits of a store lead to items that keep version 0 alone.
pub fn first_edits_keep_version_0()
    ensures { (keep : ℕ) → keep < 2 ^ 64 → KeepSpans (after (first_edits keep) no_items) (kept_by (new_tables keep)) }
{}

/// Items of format 1 that keep a state become items of format 2 that keep the same.
pub fn turned_items_keep_the_state()
    ensures { (items : Items) (kept : KeptState) (keep : Keep items kept) → FitSpans keep.tables
        → KeepSpans (after (turn_edits keep.tables) items) kept }
{}

/// What is listed of the spans of tables, by the versions at the ends of their labels: those of the base, and those of
/// each change.
pub fn items_tell_the_spans()
    ensures base { (base : List Span) (t : HubTables) → AreTables t → AreSpans base t.base → FitSpans t
        → where_label (came_within 0 t.base.number) (listed spans_area [] labels_end (items_in base t))
        ≡ map span_entry base }
    ensures changes { (base : List Span) (t : HubTables) → AreTables t → AreSpans base t.base → FitSpans t
        → AllByRecursion (λ change. where_label (came_within change.version change.version)
        (listed spans_area [] labels_end (items_in base t)) ≡ own_spans change) t.changes }
{}

/// Behind the version of the oldest change the names of its rows are listed.
pub fn items_tell_the_oldest_names()
    ensures { (base : List Span) (t : HubTables) (oldest : Change) (rest : List Change) → AreTables t
        → t.changes ≡ oldest ∷ rest
        → listed_of names_area oldest.version (items_in base t) ≡ own_names oldest }
{}

/// Items keep one state at most.
pub fn items_keep_one_state()
    ensures { (items : Items) (kept other : KeptState) → KeepSpans items kept → KeepSpans items other → kept ≡ other }
{}
