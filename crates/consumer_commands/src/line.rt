//! The line and the status of a synchronisation's answer, and of an incremental one's.

ghost use Rattle.std.specs.Prelude.{◌≡◌, ◌≢◌, ◌++◌, IfOk, codes, decimal, string_bytes};
ghost use Rattle.consumer_commands.specs.DeltaLines.{delta_status, delta_text};
ghost use Rattle.consumer_commands.specs.SyncLines as lines;
ghost use Rattle.hub_words.specs.Statuses.{output_failed_status};

use consumer_deltas::DeltaAnswer;
use exchange_link::SyncAnswer;
use hub_words::statuses;
use roster_base::NoMemory;
use roster_values::Kind;
use std::alloc::Global;

/// The line of `statuses::COPY_FAILED`.
pub const COPY_FAILED: &str = "copy store failed\n";

/// The line of `statuses::UNKNOWN_TOKEN`.
pub(crate) const UNKNOWN_TOKEN: &str = "unknown token\n";

/// The line of `statuses::PEER_FAILED`.
pub(crate) const HUB_FAILED: &str = "hub failed\n";

/// The line of `statuses::PEER_NO_MEMORY`.
pub(crate) const HUB_NO_MEMORY: &str = "hub without memory\n";

/// The line of `statuses::LAST_NUMBER`.
pub(crate) const LAST_NUMBER: &str = "last number\n";

/// The line of `statuses::NO_MEMORY`.
pub(crate) const NO_MEMORY: &str = "no memory\n";

/// The status of the process after a synchronisation: each cause of a stop has its own.
pub fn sync_status(answer: SyncAnswer) -> u8
    ensures value { result ≡ lines.sync_status answer }
    ensures other { result ≢ output_failed_status }
{
    match answer {
        SyncAnswer::Complete { .. } => statuses::DONE,
        SyncAnswer::KeeperFault => statuses::COPY_FAILED,
        SyncAnswer::Interrupted { .. } => statuses::INTERRUPTED,
        SyncAnswer::PinGone { .. } => statuses::PIN_GONE,
        SyncAnswer::UnknownToken => statuses::UNKNOWN_TOKEN,
        SyncAnswer::BadReply { .. } => statuses::BAD_REPLY,
        SyncAnswer::TooLarge { .. } => statuses::TOO_LARGE,
        SyncAnswer::HubFault => statuses::PEER_FAILED,
        SyncAnswer::HubNoMemory => statuses::PEER_NO_MEMORY,
        SyncAnswer::LastRun => statuses::LAST_NUMBER,
        SyncAnswer::NoMemory => statuses::NO_MEMORY,
    }
}

/// The line of a word, a kind and a number.
pub fn place_line(alloc: Global, word: &str, kind: Kind, number: u64) -> Result<String, NoMemory>
    ensures { IfOk result (λ t. string_bytes t ≡ lines.place_text word.now kind number) }
{
    let mut line = String::from_str(alloc, word)?;
    line.push_str(kind.plural())?;
    line.push_str(format!(in alloc; " {number}\n")?.as_str())?;
    Ok(line)
}

// The line that tells which version the copy holds, whole.
fn complete_line(alloc: Global, version: u64) -> Result<String, NoMemory>
    ensures { IfOk result (λ t. string_bytes t ≡ codes "complete " ++ decimal version ++ codes "\n") }
{
    Ok(format!(in alloc; "complete {version}\n")?)
}

// The line that tells which pin is gone, and which is the oldest version that the token may ask for.
fn gone_line(alloc: Global, pin: u64, oldest: u64) -> Result<String, NoMemory>
    ensures { IfOk result (λ t. string_bytes t ≡ codes "pin gone " ++ decimal pin ++ codes " " ++ decimal oldest ++ codes "\n") }
{
    Ok(format!(in alloc; "pin gone {pin} {oldest}\n")?)
}

/// A line that is the same for every answer of its sort.
pub(crate) fn fixed_line(alloc: Global, line: &str) -> Result<String, NoMemory>
    ensures { IfOk result (λ t. string_bytes t ≡ line.now) }
{
    Ok(String::from_str(alloc, line)?)
}

/// The line that tells how the synchronisation ended.
#[tactic(auto, unfolding(crate::specs::SyncLines::sync_text))]
pub fn sync_line(alloc: Global, answer: SyncAnswer) -> Result<String, NoMemory>
    ensures { IfOk result (λ t. string_bytes t ≡ lines.sync_text answer) }
{
    match answer {
        SyncAnswer::Complete { version } => complete_line(alloc, version),
        SyncAnswer::KeeperFault => fixed_line(alloc, COPY_FAILED),
        SyncAnswer::Interrupted { kind, offset } => {
            place_line(alloc, "interrupted ", kind, offset)
        }
        SyncAnswer::PinGone { pin, oldest } => gone_line(alloc, pin, oldest),
        SyncAnswer::UnknownToken => fixed_line(alloc, UNKNOWN_TOKEN),
        SyncAnswer::BadReply { kind, offset } => place_line(alloc, "bad reply ", kind, offset),
        SyncAnswer::TooLarge { kind, total } => place_line(alloc, "too large ", kind, total),
        SyncAnswer::HubFault => fixed_line(alloc, HUB_FAILED),
        SyncAnswer::HubNoMemory => fixed_line(alloc, HUB_NO_MEMORY),
        SyncAnswer::LastRun => fixed_line(alloc, LAST_NUMBER),
        SyncAnswer::NoMemory => fixed_line(alloc, NO_MEMORY),
    }
}

/// The status of the process after an incremental synchronisation: that of a synchronisation, or one of its own where
/// no base is held, or the hub keeps it no longer.
pub fn delta_status(answer: DeltaAnswer) -> u8
    ensures value { result ≡ delta_status answer }
    ensures other { result ≢ output_failed_status }
{
    match answer {
        DeltaAnswer::Ended { answer } => sync_status(answer),
        DeltaAnswer::NoBase => statuses::NO_BASE,
        DeltaAnswer::BaseGone { .. } => statuses::BASE_GONE,
    }
}

// The line that tells which base is gone, and which is the oldest version that the token may ask from.
fn base_line(alloc: Global, held: u64, oldest: u64) -> Result<String, NoMemory>
    ensures { IfOk result (λ t. string_bytes t ≡ codes "base gone " ++ decimal held ++ codes " " ++ decimal oldest ++ codes "\n") }
{
    Ok(format!(in alloc; "base gone {held} {oldest}\n")?)
}

/// The line of an incremental synchronisation's answer.
#[tactic(auto, unfolding(crate::specs::DeltaLines::delta_text))]
pub fn delta_line(alloc: Global, answer: DeltaAnswer) -> Result<String, NoMemory>
    ensures { IfOk result (λ t. string_bytes t ≡ delta_text answer) }
{
    match answer {
        DeltaAnswer::Ended { answer } => sync_line(alloc, answer),
        DeltaAnswer::NoBase => fixed_line(alloc, "no base\n"),
        DeltaAnswer::BaseGone { held, oldest } => base_line(alloc, held, oldest),
    }
}
