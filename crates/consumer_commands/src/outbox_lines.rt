//! The lines and the statuses of what the outbox answers.

ghost use Rattle.std.specs.Prelude.{◌≡◌, ◌≢◌, IfOk, string_bytes};
ghost use Rattle.consumer_commands.specs.SendLines as lines;
ghost use Rattle.hub_words.specs.Statuses.{output_failed_status};

use crate::line::{
    COPY_FAILED, HUB_FAILED, HUB_NO_MEMORY, LAST_NUMBER, NO_MEMORY, UNKNOWN_TOKEN, fixed_line,
};
use exchange_link::{EnterError, SendAnswer};
use hub_words::statuses;
use keeper_memory::OutEntry;
use roster_base::NoMemory;
use std::alloc::Global;

/// The status of the process after the entries were sent: each cause of a stop has its own.
pub fn send_status(answer: SendAnswer) -> u8
    ensures value { result ≡ lines.send_status answer }
    ensures other { result ≢ output_failed_status }
{
    match answer {
        SendAnswer::Settled { .. } => statuses::DONE,
        SendAnswer::KeeperFault => statuses::COPY_FAILED,
        SendAnswer::Interrupted { .. } => statuses::INTERRUPTED,
        SendAnswer::UnknownToken => statuses::UNKNOWN_TOKEN,
        SendAnswer::NoScope { .. } => statuses::NO_SCOPE,
        SendAnswer::MarkTaken { .. } => statuses::MARK_TAKEN,
        SendAnswer::BadReply { .. } => statuses::BAD_REPLY,
        SendAnswer::HubFault { .. } => statuses::PEER_FAILED,
        SendAnswer::HubNoMemory { .. } => statuses::PEER_NO_MEMORY,
        SendAnswer::LastRun => statuses::LAST_NUMBER,
        SendAnswer::NoMemory => statuses::NO_MEMORY,
    }
}

// The line of a word and a number.
fn number_line(alloc: Global, word: &str, number: u64) -> Result<String, NoMemory>
    ensures { IfOk result (λ t. string_bytes t ≡ lines.number_text word.now number) }
{
    let mut line = String::from_str(alloc, word)?;
    line.push_str(format!(in alloc; "{number}\n")?.as_str())?;
    Ok(line)
}

/// The line that tells how the sending ended.
#[tactic(auto, unfolding(crate::specs::SendLines::send_text))]
pub fn send_line(alloc: Global, answer: SendAnswer) -> Result<String, NoMemory>
    ensures { IfOk result (λ t. string_bytes t ≡ lines.send_text answer) }
{
    match answer {
        SendAnswer::Settled { count } => number_line(alloc, "settled ", count),
        SendAnswer::KeeperFault => fixed_line(alloc, COPY_FAILED),
        SendAnswer::Interrupted { number } => number_line(alloc, "interrupted ", number),
        SendAnswer::UnknownToken => fixed_line(alloc, UNKNOWN_TOKEN),
        SendAnswer::NoScope { number } => number_line(alloc, "no scope ", number),
        SendAnswer::MarkTaken { number } => number_line(alloc, "mark taken ", number),
        SendAnswer::BadReply { number } => number_line(alloc, "bad reply ", number),
        SendAnswer::HubFault { .. } => fixed_line(alloc, HUB_FAILED),
        SendAnswer::HubNoMemory { .. } => fixed_line(alloc, HUB_NO_MEMORY),
        SendAnswer::LastRun => fixed_line(alloc, LAST_NUMBER),
        SendAnswer::NoMemory => fixed_line(alloc, NO_MEMORY),
    }
}

/// The line that tells under which number a write was entered.
pub fn entered_line(alloc: Global, number: u64) -> Result<String, NoMemory>
    ensures { IfOk result (λ t. string_bytes t ≡ lines.entered_text number) }
{
    number_line(alloc, "entered ", number)
}

/// The status of the process where a write wasn't entered: each cause has its own.
pub fn enter_status(error: EnterError) -> u8
    ensures value { result ≡ lines.enter_status error }
    ensures other { result ≢ output_failed_status }
{
    match error {
        EnterError::KeeperFault => statuses::COPY_FAILED,
        EnterError::LastNumber => statuses::LAST_NUMBER,
        EnterError::NoMemory => statuses::NO_MEMORY,
    }
}

/// The line that tells why a write wasn't entered.
#[tactic(auto, unfolding(crate::specs::SendLines::enter_text))]
pub fn enter_line(alloc: Global, error: EnterError) -> Result<String, NoMemory>
    ensures { IfOk result (λ t. string_bytes t ≡ lines.enter_text error) }
{
    match error {
        EnterError::KeeperFault => fixed_line(alloc, COPY_FAILED),
        EnterError::LastNumber => fixed_line(alloc, LAST_NUMBER),
        EnterError::NoMemory => fixed_line(alloc, NO_MEMORY),
    }
}

/// The line of an entry: its number, and either the status and the version that the hub kept, or `waiting`.
#[tactic(auto, unfolding(crate::specs::SendLines::entry_text))]
pub fn entry_line(alloc: Global, entry: &OutEntry) -> Result<String, NoMemory>
    ensures { IfOk result (λ t. string_bytes t ≡ lines.entry_text entry.now) }
{
    let number = entry.number;
    match entry.settled {
        None => Ok(format!(in alloc; "{number} waiting\n")?),
        Some(settled) => {
            let status = settled.status;
            let version = settled.version;
            Ok(format!(in alloc; "{number} {status} {version}\n")?)
        }
    }
}
