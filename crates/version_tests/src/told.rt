//! What a hub answers, and what its versions have, as texts.

use grant_scopes::Schools;
use hub_core::{HubError, Published};
use roster_types::owner::Owner;
use roster_types::row::Row;
use roster_types::rows::Rows;
use roster_values::{Kind, ValueRef};
use std::test::Fail;
use version_core::grant_row::GrantRow;
use version_core::row_change::RowChange;
use version_core::table::Table;
use version_core::view::VersionView;

// A word, and the number of the newest version.
fn answer_of(answer: &Result<Published, HubError>) -> (&'static str, u64) {
    match answer {
        Ok(Published::New { version }) => ("new", *version),
        Ok(Published::Same { version }) => ("same", *version),
        Err(HubError::Keeper) => ("failed", 0),
        Err(HubError::Refused(_)) => ("refused", 0),
        Err(HubError::NoMemory) => ("no memory", 0),
    }
}

/// Tells what a call is answered.
pub fn push_answer(told: &mut String, answer: &Result<Published, HubError>) -> Result<(), Fail> {
    let (word, version) = answer_of(answer);
    Ok(write!(told, "{word} {version}, ")?)
}

fn title_of(row: &Row) -> &str {
    match row.named("title") {
        Some(ValueRef::Text(text)) => text.as_str(),
        _ => "",
    }
}

fn feed_of(owner: &Owner) -> &str {
    match owner {
        Owner::Feed(feed) => feed.as_str(),
        Owner::Caller(_) => "",
    }
}

// A category's id, status, date, title and feed.
fn push_category(told: &mut String, change: &RowChange) -> Result<(), Fail> {
    let row = &change.row;
    let (id, status, at) = (
        row.id().as_str(),
        row.status().word(),
        row.modified().milliseconds(),
    );
    let (title, feed) = (title_of(row), feed_of(&change.owner));
    Ok(write!(told, "{id} {status} {at} {title} {feed}, ")?)
}

fn push_categories(told: &mut String, version: &VersionView) -> Result<(), Fail> {
    let mut after = None;
    for _ in 0..version.count(Kind::Categories) {
        if let Some(change) = version.next_change(Kind::Categories, after) {
            push_category(told, change)?;
            after = Some(change.row.id());
        }
    }
    Ok(())
}

fn first_school(schools: &Schools) -> &str {
    match schools {
        Schools::All => "*",
        Schools::Listed(list) => match list.ids().first() {
            Some(id) => id.as_str(),
            None => "",
        },
    }
}

// A caller, its token, the bits of its scopes, the first of its schools, and since when it has them.
fn push_grant(told: &mut String, row: &GrantRow) -> Result<(), Fail> {
    let (caller, token) = (row.caller.as_str(), row.grant.token.as_str());
    let (bits, since) = (row.grant.scopes.bits(), row.grant.since);
    let school = first_school(&row.grant.schools);
    Ok(write!(told, "{caller} {token} {bits} {school} since {since}, ")?)
}

fn push_version(told: &mut String, version: &VersionView) -> Result<(), Fail> {
    push_categories(told, version)?;
    for row in version.grants() {
        push_grant(told, row)?;
    }
    Ok(told.push_str("; ")?)
}

/// Tells the number of the oldest version, and the rows and grants of each that is kept.
pub fn push_table(told: &mut String, table: &Table) -> Result<(), Fail> {
    let oldest = table.oldest();
    write!(told, "from {oldest}: ")?;
    for number in oldest..table.newest() {
        push_version(told, &table.rows_at(number))?;
    }
    push_version(told, &table.newest_rows())
}
