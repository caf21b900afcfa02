//! Answers of commands.

ghost use Rattle.std.specs.Prelude.{◌≡◌, ◌≢◌, [], IfOk, IsOk, string_bytes};
ghost use Rattle.hub_commands.specs.Answers as answers;
ghost use Rattle.hub_commands.specs.declared.answer.End.TheVariants as ends;
ghost use Rattle.hub_words.specs.Statuses.{output_failed_status};

use crate::lines::{
    FOLDER_FAILED, HUB_FAILED, NO_MEMORY, NOTHING_HELD, bad_word_line, fault_line,
    grants_fault_line, named_file_line, publish_fault_lines, request_line, script_line,
};
use consumer_commands::deltas::DeltaAnswer;
use consumer_commands::{
    COPY_FAILED, delta_line, delta_status, enter_line, enter_status, place_line, send_line,
    send_status, sync_line, sync_status,
};
use csv_sets::SetFault;
use exchange_link::{EnterError, SendAnswer, SyncAnswer};
use grant_files::GrantFault;
use hub_words::statuses;
use rest_provider::RequestFault;
use roster_base::{NoMemory, Text};
use roster_values::Kind;
use std::alloc::Global;
use version_changes::PublishFault;

/// How a command ended. The status follows from it alone.
#[derive(Drop)]
pub enum End {
    Done,
    /// The words are no command from this place on.
    BadWord(usize),
    /// The folder failed, and its count of faults rose.
    FolderFailed,
    /// A file or a set is refused for this fault, its first.
    Refused(SetFault),
    /// A file that the words name isn't there.
    MissingFile(Text),
    /// A file that the words name has too many bytes.
    FileTooLarge(Text),
    /// A file that the words name isn't UTF-8.
    FileNotUtf8(Text),
    /// A file that the words name says no row.
    BadRow(Text),
    /// A file of grants is refused for this fault, its first.
    GrantsRefused(GrantFault),
    /// What stands behind the answered requests of a stream is refused, under the number of the next request.
    RequestRefused { number: u64, fault: RequestFault },
    /// A script is refused for its first line that no script has, which is told by its number from 1.
    ScriptRefused { line: u64 },
    /// A set, or a list of grants, isn't published, for this reason, the first.
    NotPublished(PublishFault),
    /// The hub's keeper failed, and its count of faults rose.
    HubFailed,
    /// A synchronisation ended with this answer.
    Synced(SyncAnswer),
    /// An incremental synchronisation ended with this answer.
    DeltaSynced(DeltaAnswer),
    /// A write wasn't entered, for this reason.
    NotEntered(EnterError),
    /// Sending the writes of the outbox ended with this answer.
    Sent(SendAnswer),
    /// The copy's keeper failed, and its count of faults rose.
    CopyFailed,
    /// A copy that was to be exported holds nothing.
    NothingHeld,
    /// The file of a kind would have so many bytes, more than a file may have.
    ExportTooLarge { kind: Kind, bytes: u64 },
    /// Memory ran out, which says nothing of the input.
    NoMemory,
}

impl From<NoMemory> for End {
    ghost use Rattle.std.specs.Prelude.{◌≡◌};
    ghost use Rattle.hub_commands.specs.declared.answer.End.TheVariants.{NoMemory};

    ghost from_gives = { λ _ e. e ≡ NoMemory };

    fn from(_error: NoMemory) -> End {
        End::NoMemory
    }
}

/// What a command came to: the text of what was done, and how it ended.
#[derive(Drop)]
pub struct Answer {
    pub done: Text,
    pub end: End,
}

impl Answer {
    /// An answer of a command that ended before it had done anything.
    pub fn nothing_done(alloc: Global, end: End) -> Answer
        ensures { result ≡ record { done = []; end = end } }
    {
        Answer {
            done: Text::from_string(String::new(alloc)),
            end,
        }
    }
}

impl End {
    /// The status of the process: 0, 2 to 17, or 19 to 21. 1 is left to an output that couldn't be written, and 18 to a
    /// server.
    pub fn status(&self) -> u8
        ensures value { result ≡ answers.status_of self.now }
        ensures other { result ≢ output_failed_status }
    {
        match self {
            End::Done => statuses::DONE,
            End::BadWord(_) => statuses::BAD_WORDS,
            End::FolderFailed => statuses::FOLDER_FAILED,
            End::Refused(_) | End::NotPublished(_) => statuses::REFUSED,
            End::MissingFile(_) | End::FileTooLarge(_) => statuses::REFUSED,
            End::FileNotUtf8(_) | End::BadRow(_) | End::GrantsRefused(_) => statuses::REFUSED,
            End::RequestRefused { .. } | End::ScriptRefused { .. } => statuses::REFUSED,
            End::HubFailed => statuses::HUB_FAILED,
            End::Synced(answer) => sync_status(*answer),
            End::DeltaSynced(answer) => delta_status(*answer),
            End::NotEntered(error) => enter_status(*error),
            End::Sent(answer) => send_status(*answer),
            End::CopyFailed => statuses::COPY_FAILED,
            End::NothingHeld => statuses::NOTHING_HELD,
            End::ExportTooLarge { .. } => statuses::TOO_LARGE,
            End::NoMemory => statuses::NO_MEMORY,
        }
    }

    /// The lines that tell the end.
    pub fn lines(&self, alloc: Global) -> Result<String, NoMemory>
        ensures text { IfOk result (λ t. string_bytes t ≡ answers.end_text self.now) }
        ensures done { self.now ≡ ends.Done → IsOk result }
    {
        match self {
            End::Done => Ok(String::new(alloc)),
            End::BadWord(place) => bad_word_line(alloc, *place),
            End::FolderFailed => Ok(String::from_str(alloc, FOLDER_FAILED)?),
            End::Refused(fault) => fault_line(alloc, fault),
            End::MissingFile(name) => named_file_line(alloc, name.as_str(), ": missing file\n"),
            End::FileTooLarge(name) => named_file_line(alloc, name.as_str(), ": too large\n"),
            End::FileNotUtf8(name) => named_file_line(alloc, name.as_str(), ": not UTF-8\n"),
            End::BadRow(name) => named_file_line(alloc, name.as_str(), ": bad row\n"),
            End::GrantsRefused(fault) => grants_fault_line(alloc, *fault),
            End::RequestRefused { number, fault } => request_line(alloc, *number, *fault),
            End::ScriptRefused { line } => script_line(alloc, *line),
            End::NotPublished(fault) => publish_fault_lines(alloc, fault),
            End::HubFailed => Ok(String::from_str(alloc, HUB_FAILED)?),
            End::Synced(answer) => sync_line(alloc, *answer),
            End::DeltaSynced(answer) => delta_line(alloc, *answer),
            End::NotEntered(error) => enter_line(alloc, *error),
            End::Sent(answer) => send_line(alloc, *answer),
            End::CopyFailed => Ok(String::from_str(alloc, COPY_FAILED)?),
            End::NothingHeld => Ok(String::from_str(alloc, NOTHING_HELD)?),
            End::ExportTooLarge { kind, bytes } => place_line(alloc, "too large ", *kind, *bytes),
            End::NoMemory => Ok(String::from_str(alloc, NO_MEMORY)?),
        }
    }
}
