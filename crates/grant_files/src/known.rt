//! The callers and tokens that stood in earlier records.

ghost use Rattle.std.specs.Prelude.{◌≡◌, [], not, true, IfOk, OnOk};
ghost use Rattle.std.specs.BTreeSet.{contains_text};
ghost use Rattle.roster_base.specs.Reading.{Gives};
ghost use Rattle.grant_files.specs.Grants.{new_in};
ghost use Rattle.grant_files.specs.Known.{Knows, Notes};

use crate::fault::{GrantError, GrantFault};
use grant_scopes::GrantEntry;
use roster_base::{NoMemory, Refusal};
use std::alloc::Global;
use std::collections::BTreeSet;

// Notes a text, and says whether it is new.
fn note(alloc: Global, texts: &mut BTreeSet<String>, text: &str) -> Result<bool, NoMemory>
    ensures told { IfOk result (λ is_new. is_new ≡ not (contains_text texts.old text.now)) }
    ensures noted { OnOk result (Notes texts.old texts.new text.now) }
{
    Ok(texts.insert(String::from_str(alloc, text)?)?)
}

/// The callers and the tokens of the records so far.
#[derive(Drop)]
pub struct Known {
    callers: BTreeSet<String>,
    tokens: BTreeSet<String>,
}

impl Known {
    /// None are known.
    pub fn new(alloc: Global) -> Known
        ensures { Knows result [] }
    {
        Known {
            callers: BTreeSet::new(alloc),
            tokens: BTreeSet::new(alloc),
        }
    }

    /// Notes the caller and the token of a record, which must be new.
    pub fn add(&mut self, alloc: Global, number: u64, entry: &GrantEntry) -> Result<(), GrantError>
        ensures new { Gives (λ _. true) result (new_in number
            (contains_text self.old.callers entry.now.caller)
            (contains_text self.old.tokens entry.now.token)) }
        ensures callers { OnOk result (Notes self.old.callers self.new.callers entry.now.caller) }
        ensures tokens { OnOk result (Notes self.old.tokens self.new.tokens entry.now.token) }
    {
        if !note(alloc, &mut self.callers, entry.caller.as_str())? {
            return Err(Refusal::Fault(GrantFault::RepeatedCaller { record_no: number }));
        }
        if !note(alloc, &mut self.tokens, entry.token.as_str())? {
            return Err(Refusal::Fault(GrantFault::RepeatedToken { record_no: number }));
        }
        Ok(())
    }
}
