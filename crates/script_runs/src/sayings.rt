//! The lines that tell what others did.

ghost use Rattle.std.specs.Prelude.{◌≡◌, ◌++◌, IfOk, string_bytes};
ghost use Rattle.script_runs.specs.Sayings.{made_text, replied_text, said_text, saying_text};

use crate::sources::told_lines;
use hub_commands::End;
use hub_commands::lines::request_line;
use hub_commands::publish::{end_of_error, told_line};
use hub_core::{HubError, Published};
use roster_base::NoMemory;
use std::alloc::Global;
use sync_world::Saying;
use sync_world::provider::RequestFault;

// The lines that tell what the hub made of a set of this name, or of grants.
fn made_line(
    alloc: Global,
    name: &str,
    answer: Result<Published, HubError>,
) -> Result<String, NoMemory>
    ensures { IfOk result (λ s. string_bytes s ≡ made_text name.now answer) }
{
    match answer {
        Ok(published) => told_line(alloc, name, published),
        Err(error) => told_lines(alloc, end_of_error(error)),
    }
}

// The line of a reply's status, and of the version that it names.
#[tactic(auto, unfolding(crate::specs::Sayings::replied_text))]
fn reply_line(alloc: Global, status: u16, version: Option<u64>) -> Result<String, NoMemory>
    ensures { IfOk result (λ s. string_bytes s ≡ replied_text status version) }
{
    match version {
        Some(version) => Ok(format!(in alloc; "{status} {version}\n")?),
        None => Ok(format!(in alloc; "{status} -\n")?),
    }
}

// The lines of a saying.
#[tactic(auto, unfolding(crate::specs::Sayings::saying_text))]
fn saying_line(alloc: Global, saying: Saying) -> Result<String, NoMemory>
    ensures { IfOk result (λ s. string_bytes s ≡ saying_text saying) }
{
    match saying {
        Saying::Published { name, answer } => {
            let line = made_line(alloc, name.as_str(), answer);
            drop(name);
            line
        }
        Saying::Granted { answer } => made_line(alloc, "grants", answer),
        Saying::Replied { status, version } => reply_line(alloc, status, version),
        Saying::Stopped { request, fault } => {
            request_line(alloc, request, RequestFault::Unreadable(fault))
        }
        Saying::AfterClose { request } => request_line(alloc, request, RequestFault::AfterClose),
        Saying::Lines { lines } => Ok(lines.into_string()),
        Saying::NotOpened => told_lines(alloc, End::HubFailed),
    }
}

// The text with the lines of one more saying.
fn push_saying(alloc: Global, text: String, saying: Saying) -> Result<String, NoMemory>
    ensures { IfOk result (λ t. string_bytes t ≡ string_bytes text ++ saying_text saying) }
{
    let mut text = text;
    text.push_str(saying_line(alloc, saying)?.as_str())?;
    Ok(text)
}

/// The lines that tell what others did.
pub fn said_lines(alloc: Global, said: Vec<Saying>) -> Result<String, NoMemory>
    ensures { IfOk result (λ t. string_bytes t ≡ said_text said.items) }
{
    let mut text = String::new(alloc);
    for saying in said {
        text = push_saying(alloc, text, saying)?;
    }
    Ok(text)
}
