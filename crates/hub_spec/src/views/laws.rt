//! What holds of lists, pages and cuts. Each function here does nothing; its contract is a law.

ghost use Rattle.std.specs.Prelude.{◌≡◌, ◌≤◌, ◌*◌, ℕ, List, Some, filter, length, map};
ghost use Rattle.std.specs.List.Sorted.{IsPermutation, IsSortedBy, IsStableBy};
ghost use Rattle.filter_grammar.specs.declared.query.Query.{Query};
ghost use Rattle.hub_spec.specs.views.Cuts.{cut, list_in};
ghost use Rattle.hub_spec.specs.views.Deltas.{delta};
ghost use Rattle.row_deltas.specs.Deltas.{ids_gone, merged, rows_put};
ghost use Rattle.version_core.specs.Version.{IsVersion};
ghost use Rattle.rest_paths.specs.Paths.{PathParts};
ghost use Rattle.hub_spec.specs.views.Lists.{is_listed, list_of};
ghost use Rattle.filter_grammar.specs.rows.Orders.{Sorting, arranged, comes_before};
ghost use Rattle.hub_spec.specs.views.Pages.{IsPlain, pages_joined, whole};
ghost use Rattle.roster_types.specs.Keys.{Ascends, is_of_kind, row_key};
ghost use Rattle.roster_types.specs.Records.{Record};
ghost use Rattle.roster_values.specs.declared.kind.Kind.{Kind};
ghost use Rattle.version_core.specs.Changes.{rows_of};
ghost use Rattle.version_core.specs.Grants.{grant_of};
ghost use Rattle.version_core.specs.declared.change.BaseVersion.{BaseVersion};
ghost use Rattle.std.specs.List.{IsDistinct};
ghost use Rattle.hub_spec.specs.views.SameKeys.{same_key};

/// A stable sort by the order of a list arranges rows by it.
pub fn a_stable_sort_arranges_rows()
    ensures { (sorting : Sorting) (rows sorted : List Record) → IsSortedBy (comes_before sorting) sorted → IsStableBy (comes_before sorting) rows sorted → sorted ≡ arranged sorting rows }
{}

/// The pages of a path and a query from the front on, in one version, joined, are the list.
pub fn pages_join_to_their_list()
    ensures { (rows list : List Record) (version : ℕ) (path : PathParts) (query : Query) → list_of rows path query ≡ Some list → (n : ℕ) → length list ≤ n * query.limit → pages_joined rows version path query n ≡ list }
{}

/// A list has the rows that belong to the path and pass the filter, each as often as it stands among the rows.
pub fn a_list_has_each_of_its_rows_once()
    ensures { (rows list : List Record) (path : PathParts) (query : Query) → list_of rows path query ≡ Some list → IsPermutation (filter (is_listed rows path query) rows) list }
{}

/// A cut looks at the rows and the grant of a version alone.
pub fn a_cut_looks_at_rows_and_grant_alone()
    ensures { (one other : BaseVersion) (token : List ℕ) → rows_of one.rows ≡ rows_of other.rows → grant_of token one.grants ≡ grant_of token other.grants → cut one token ≡ cut other token }
{}

/// Put over the list of a kind in the cut of one version, what differs gives the list in the cut of the other.
pub fn a_delta_leads_from_cut_to_cut()
    ensures { (before after : BaseVersion) → IsVersion before → IsVersion after → (token : List ℕ) (kind : Kind)
        → merged (list_in before token kind) (rows_put (delta before after token kind)) (ids_gone (delta before after token kind)) ≡ list_in after token kind }
{}

/// The list of a whole collection without filter and order is the rows of its kind, as they stand.
pub fn a_whole_collection_lists_its_kind()
    ensures { (kind : Kind) (rows : List Record) (query : Query) → IsPlain query → Ascends row_key rows → list_of rows (whole kind) query ≡ Some (filter (is_of_kind kind) rows) }
{}

/// A list has no row twice: its rows differ in their ids, where those of the version do.
pub fn a_list_has_no_row_twice()
    ensures { (rows list : List Record) (path : PathParts) (query : Query) → Ascends row_key rows → list_of rows path query ≡ Some list → IsDistinct same_key (map row_key list) }
{}
