//! What holds of what is exported. Each function here does nothing; its contract is a law.

ghost use Rattle.std.specs.Prelude.{◌≡◌, ℕ, ℤ, List, Ok};
ghost use Rattle.bulk_export.specs.Changes.{AreChanges, LeadsTo, put_over};
ghost use Rattle.bulk_export.specs.Folders.{IsExportFolder, parts_of};
ghost use Rattle.csv_sets.specs.Sets.{set_of};
ghost use Rattle.outside_ports.specs.Files.{Stored};
ghost use Rattle.roster_types.specs.Keys.{Key, look_up, row_key};
ghost use Rattle.roster_types.specs.Records.{Record};
ghost use Rattle.roster_types.specs.declared.set_row.SetRow.{SetRow};
ghost use Rattle.roster_values.specs.declared.kind.Kind.{Kind};
ghost use Rattle.roster_values.specs.declared.mode.Mode.{Mode};
ghost use Rattle.version_changes.specs.sets.Applying.{set_key};

/// A folder with a manifest and the files of all kinds is read as a set with exactly the rows that were written, all
/// dated.
pub fn an_exported_folder_is_read_back()
    ensures { (mode : Mode) (dir feed : List ℕ) (files : List Stored) (rows : Kind → List Record)
        → IsExportFolder mode dir files rows
        → set_of dir feed files ≡ Ok (record { feed = feed; parts = parts_of mode rows }) }
{}

/// Put over the rows of the earlier set, changes give the rows that are held, and beside them only rows marked as
/// deleted that the earlier set had.
pub fn changes_lead_to_what_is_held()
    ensures { (at : ℤ) (earlier : List SetRow) (held changes : List Record) → AreChanges at earlier held changes
        → (k : Key) → LeadsTo (look_up set_key k earlier) (look_up row_key k held)
        (look_up row_key k (put_over earlier changes)) }
{}
