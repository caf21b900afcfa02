//! Laws on the items of a hub's state. Each function here does nothing; its contract is a law.

ghost use Rattle.std.specs.Prelude.{◌≡◌, [], ◌∷◌, map};
ghost use Rattle.item_maps.specs.Items.{Items, listed};
ghost use Rattle.keeper_memory.specs.Kept.{KeptState};
ghost use Rattle.version_core.specs.Tables.{AreTables};
ghost use Rattle.version_core.specs.declared.hub_tables.HubTables.{HubTables};
ghost use Rattle.hub_format.specs.Areas.{base_rows_area, format_area, grants_area, marks_area, state_area};
ghost use Rattle.hub_format.specs.Format.{Fit, Keep, first_format, format_entry, grants_under, items_of, listed_of};
ghost use Rattle.hub_format.specs.Format.{mark_entry, rows_under, state_entry};
ghost use Rattle.hub_format.specs.Pieces.{labels_end};

/// Items keep one state at most.
pub fn items_keep_one_state()
    ensures { (items : Items) (kept other : KeptState) → Keep items kept → Keep items other → kept ≡ other }
{}

/// What is listed of the items of tables: the format and the state, which alone stand below `[0]`, the rows and the
/// grants of the base, and the marks.
pub fn items_tell_the_base()
    ensures format { (t : HubTables) → listed format_area [] (0 ∷ []) (items_of t) ≡ format_entry first_format ∷ [] }
    ensures state { (t : HubTables) → listed state_area [] (0 ∷ []) (items_of t) ≡ state_entry t.keep t.base ∷ [] }
    ensures rows { (t : HubTables) → AreTables t
        → listed base_rows_area [] labels_end (items_of t) ≡ rows_under [] t.base.rows }
    ensures grants { (t : HubTables) → AreTables t → Fit t
        → listed_of grants_area t.base.number (items_of t) ≡ grants_under t.base.number t.base.grants }
    ensures marks { (t : HubTables) → AreTables t → Fit t
        → listed marks_area [] labels_end (items_of t) ≡ map mark_entry t.marks }
{}
