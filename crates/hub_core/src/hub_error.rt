//! Why a call of a hub gave no answer.

ghost use Rattle.std.specs.Prelude.{◌≡◌};
ghost use Rattle.hub_core.specs.Errors.{error_of_keeper};
ghost use Rattle.hub_core.specs.declared.hub_error.HubError.TheVariants as error;

use roster_base::{KeeperError, NoMemory};
use version_changes::PublishFault;

/// A failure of the keeper, want of memory, or a refusal.
#[derive(Drop)]
pub enum HubError {
    /// The keeper failed, and its count of faults rose in this call.
    Keeper,
    /// Memory ran out.
    NoMemory,
    /// What was to be published is refused for this fault, its first.
    Refused(PublishFault),
}

impl From<NoMemory> for HubError {
    ghost from_gives = { λ _ e. e ≡ error.NoMemory };

    fn from(_error: NoMemory) -> HubError {
        HubError::NoMemory
    }
}

impl From<KeeperError> for HubError {
    ghost from_gives = { λ k e. e ≡ error_of_keeper k };

    fn from(error: KeeperError) -> HubError {
        match error {
            KeeperError::Failed => HubError::Keeper,
            KeeperError::NoMemory => HubError::NoMemory,
        }
    }
}
