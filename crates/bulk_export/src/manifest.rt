//! The manifest of an exported set.

ghost use Rattle.std.specs.Prelude.{◌≡◌, ◌++◌, IfOk, OnOk, string_bytes};
ghost use Rattle.std.specs.List.{flat_map};
ghost use Rattle.bulk_export.specs.Exports as spec;

use roster_base::NoMemory;
use roster_values::{Kind, Mode};
use std::alloc::Global;

// The word for a mode in a manifest.
fn mode_word(mode: Mode) -> &'static str
    ensures { result.now ≡ spec.mode_word mode }
{
    match mode {
        Mode::Bulk => "bulk",
        Mode::Delta => "delta",
    }
}

// Adds the line of a kind's file.
fn push_file(text: &mut String, mode: Mode, kind: Kind) -> Result<(), NoMemory>
    ensures { OnOk result (string_bytes text.new ≡ string_bytes text.old ++ spec.file_line mode kind) }
{
    text.push_str("file.")?;
    text.push_str(kind.plural())?;
    text.push(',')?;
    text.push_str(mode_word(mode))?;
    text.push('\n')?;
    Ok(())
}

// Adds the lines of these kinds' files.
fn push_files(text: &mut String, mode: Mode, kinds: &[Kind]) -> Result<(), NoMemory>
    ensures { OnOk result (string_bytes text.new ≡ string_bytes text.old ++ flat_map (spec.file_line mode) kinds.now) }
{
    for kind in kinds {
        push_file(text, mode, *kind)?;
    }
    Ok(())
}

/// The manifest of a set with a file of each kind, all in one mode.
#[tactic(auto, unfolding(crate::specs::Exports::manifest_text))]
pub fn export_manifest(alloc: Global, mode: Mode) -> Result<Vec<u8>, NoMemory>
    ensures { IfOk result (λ v. v.items ≡ spec.manifest_text mode) }
{
    let mut text = String::from_str(
        alloc,
        "propertyName,value\nmanifest.version,1.0\noneroster.version,1.1\n",
    )?;
    push_files(&mut text, mode, &Kind::ALL)?;
    text.push_str("source.systemName,hub\nsource.systemCode,hub\n")?;
    Ok(text.into_bytes())
}
