//! Why nothing was exported.

ghost use Rattle.std.specs.Prelude.{◌≡◌};
ghost use Rattle.bulk_export.specs.Exports.{export_error};

use roster_base::KeeperError;

/// Why nothing was exported.
#[derive(Clone, Copy, Debug, PartialEq, Eq)]
pub enum ExportError {
    /// The copy holds nothing.
    NothingHeld,
    /// The copy's keeper failed.
    KeeperFault,
    /// The text would have so many bytes, more than a file may have.
    TooLarge { bytes: u64 },
    /// Memory ran out.
    NoMemory,
}

/// The error for a failure of the copy's keeper.
pub fn export_error(error: KeeperError) -> ExportError
    ensures { result ≡ export_error error }
{
    match error {
        KeeperError::Failed => ExportError::KeeperFault,
        KeeperError::NoMemory => ExportError::NoMemory,
    }
}
