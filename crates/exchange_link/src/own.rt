//! Whether what came is the own reply to a request.

ghost use Rattle.std.specs.Prelude.{◌≡◌, IfOk, Ok, true};
ghost use Rattle.exchange_link.specs.Exchanges.{Carries, IsSentText, IsTextOf};
ghost use Rattle.status_info.specs.declared.request.Request.{Request as Asked};

use crate::arrival::Arrival;
use crate::reading::request_of;
use roster_base::NoMemory;
use status_info::{Echo, Request};
use std::alloc::Global;

// The number of a request, which is let go.
fn taken_number(request: Request) -> Option<Echo>
    ensures { result ≡ request.echo }
{
    let number = request.echo;
    drop(request);
    number
}

// The number of the request whose text this is.
fn number_of(alloc: Global, text: &[u8]) -> Result<Option<Echo>, NoMemory>
    requires { IsSentText text.now }
    ensures { IfOk result (λ number. (q : Asked) → IsTextOf q text.now → number ≡ q.echo) }
{
    let request = request_of(alloc, text)?;
    Ok(taken_number(request))
}

// Whether both are the same number, or both are none.
fn is_same(one: Option<Echo>, other: Option<Echo>) -> bool
    ensures { result ≡ true → one ≡ other }
{
    match (one, other) {
        (None, None) => true,
        (Some(one), Some(other)) => one.run == other.run && one.count == other.count,
        _ => false,
    }
}

/// Whether what came is a reply with the number of the request whose text this is.
pub(crate) fn is_own(alloc: Global, request: &[u8], came: &Arrival) -> Result<bool, NoMemory>
    requires { IsSentText request.now }
    ensures { result ≡ Ok true → (q : Asked) → IsTextOf q request.now → Carries came.now q.echo }
{
    let number = number_of(alloc, request)?;
    match came.reply() {
        Some(reply) => Ok(is_same(reply.echo, number)),
        None => Ok(false),
    }
}
