//! Why a cascade made nothing.

ghost use Rattle.std.specs.Prelude.{◌≡◌};
ghost use Rattle.hub_cascade.specs.Answers.{error_of_copy, error_of_hub};
ghost use Rattle.hub_cascade.specs.declared.error.CascadeError.TheVariants as error;

use hub_core::HubError;
use roster_base::{KeeperError, NoMemory};
use version_changes::PublishFault;

/// Why a cascade made nothing, or why it isn't known what it made.
#[derive(Drop)]
pub enum CascadeError {
    /// The hub's keeper failed, and its count of faults rose in this call.
    HubKeeper,
    /// The copy's keeper failed, and its count of faults rose in this call.
    CopyKeeper,
    /// Memory ran out.
    NoMemory,
    /// The copy holds nothing.
    NothingHeld,
    /// What the copy holds is refused for this fault, its first.
    Refused(PublishFault),
}

impl From<NoMemory> for CascadeError {
    ghost from_gives = { λ _ e. e ≡ error.NoMemory };

    fn from(_error: NoMemory) -> CascadeError {
        CascadeError::NoMemory
    }
}

/// A hub's keeper brings its errors as `HubError`, so that these are the copy's.
impl From<KeeperError> for CascadeError {
    ghost from_gives = { λ k e. e ≡ error_of_copy k };

    fn from(error: KeeperError) -> CascadeError {
        match error {
            KeeperError::Failed => CascadeError::CopyKeeper,
            KeeperError::NoMemory => CascadeError::NoMemory,
        }
    }
}

impl From<HubError> for CascadeError {
    ghost from_gives = { λ h e. e ≡ error_of_hub h };

    fn from(error: HubError) -> CascadeError {
        match error {
            HubError::Keeper => CascadeError::HubKeeper,
            HubError::NoMemory => CascadeError::NoMemory,
            HubError::Refused(fault) => CascadeError::Refused(fault),
        }
    }
}
