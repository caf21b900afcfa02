//! The texts of values and references, as cells and JSON strings have them.

ghost use Rattle.std.specs.Prelude.{◌≡◌, ◌≤◌, ◌++◌, IfOk, OnOk, string_bytes};
ghost use Rattle.std.specs.Fmt.{signed_decimal};
ghost use Rattle.roster_texts.specs.Digits.{four};
ghost use Rattle.roster_types.specs.Hrefs as hrefs;
ghost use Rattle.roster_values.specs.CellText as cells;

use percent_encoding::{AsciiSet, NON_ALPHANUMERIC, ascii_set, utf8_percent_encode};
use roster_base::NoMemory;
use roster_texts::Id;
use roster_texts::digits::push_four;
use roster_values::Kind;
use std::alloc::Global;

/// The bytes of an id that stand in a path as `%` and two digits: all but letters, digits and `-._~`.
pub const ESCAPED_IN_HREF: AsciiSet = ascii_set!(
    NON_ALPHANUMERIC
        .remove(b'-')
        .remove(b'.')
        .remove(b'_')
        .remove(b'~')
);

/// Adds the path of a row: where the hub of the standard's REST binding gives it.
pub fn push_href(text: &mut String, kind: Kind, id: &Id) -> Result<(), NoMemory>
    ensures { OnOk result (string_bytes text.new ≡ string_bytes text.old ++ hrefs.href kind id.now) }
{
    text.push_str("/ims/oneroster/v1p1/")?;
    text.push_str(kind.plural())?;
    text.push('/')?;
    utf8_percent_encode(id.as_str(), ESCAPED_IN_HREF).append_to(text)?;
    Ok(())
}

/// The path of a row.
pub fn href(alloc: Global, kind: Kind, id: &Id) -> Result<String, NoMemory>
    ensures { IfOk result (λ s. string_bytes s ≡ hrefs.href kind id.now) }
{
    let mut path = String::new(alloc);
    push_href(&mut path, kind, id)?;
    Ok(path)
}

/// `true` or `false`.
pub fn flag_text(flag: bool) -> &'static str
    ensures { result.now ≡ cells.flag_text flag }
{
    if flag { "true" } else { "false" }
}

/// A whole number in decimal.
pub fn number_text(alloc: Global, number: i64) -> Result<String, NoMemory>
    ensures { IfOk result (λ s. string_bytes s ≡ signed_decimal number) }
{
    Ok(format!(in alloc; "{number}")?)
}

/// A year in four digits.
pub fn year_text(alloc: Global, year: u16) -> Result<String, NoMemory>
    requires { year ≤ 9999 }
    ensures { IfOk result (λ s. string_bytes s ≡ four year) }
{
    let mut text = String::new(alloc);
    push_four(&mut text, year)?;
    Ok(text)
}
