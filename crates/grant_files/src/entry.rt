//! The grant of a record.

ghost use Rattle.csv.specs.Records.{AllText, fields_of};
ghost use Rattle.roster_base.specs.Reading.{Gives};
ghost use Rattle.roster_texts.specs.Results.{found_or};
ghost use Rattle.grant_scopes.specs.Words.{scopes_in};
ghost use Rattle.grant_files.specs.declared.fault.GrantFault.TheVariants as fault;
ghost use Rattle.grant_files.specs.Grants.{caller_of, entry_of, token_of};
ghost use Rattle.grant_files.specs.Schools.{schools_of};

use crate::fault::{GrantError, GrantFault};
use crate::schools::read_schools;
use csv::ByteRecord;
use csv_sets::cells::text_at;
use grant_scopes::{GrantEntry, Schools, Scopes};
use roster_base::Refusal;
use roster_texts::{Name, Token};
use std::alloc::Global;

fn read_caller(alloc: Global, number: u64, text: &str) -> Result<Name, GrantError>
    ensures { Gives (λ name. name) result (caller_of number text.now) }
{
    Name::read(alloc, text)?.ok_or(Refusal::Fault(GrantFault::BadName { record_no: number }))
}

fn read_token(alloc: Global, number: u64, text: &str) -> Result<Token, GrantError>
    ensures { Gives (λ token. token) result (token_of number text.now) }
{
    Token::read(alloc, text)?.ok_or(Refusal::Fault(GrantFault::BadToken { record_no: number }))
}

fn read_scopes(number: u64, text: &str) -> Result<Scopes, GrantError>
    ensures { Gives (λ scopes. scopes) result (found_or (fault.BadScope number) (scopes_in text.now)) }
{
    Scopes::read(text).ok_or(Refusal::Fault(GrantFault::BadScope { record_no: number }))
}

fn schools_in(alloc: Global, number: u64, text: &str) -> Result<Schools, GrantError>
    ensures { Gives (λ schools. schools) result (found_or (fault.BadSchools number) (schools_of text.now)) }
{
    read_schools(alloc, text)?.ok_or(Refusal::Fault(GrantFault::BadSchools { record_no: number }))
}

/// The grant that a record asks for, or what is wrong with it first.
#[tactic(auto, unfolding(crate::specs::Grants::entry_of))]
pub fn read_entry(alloc: Global, number: u64, cells: &ByteRecord) -> Result<GrantEntry, GrantError>
    requires { AllText (fields_of cells.now) }
    ensures { Gives (λ entry. entry) result (entry_of number (fields_of cells.now)) }
{
    if cells.len() != 4 {
        return Err(Refusal::Fault(GrantFault::Width { record_no: number }));
    }
    let caller = read_caller(alloc, number, text_at(cells, 0))?;
    let token = read_token(alloc, number, text_at(cells, 1))?;
    let scopes = read_scopes(number, text_at(cells, 2))?;
    let schools = schools_in(alloc, number, text_at(cells, 3))?;
    Ok(GrantEntry {
        caller,
        token,
        scopes,
        schools,
    })
}
