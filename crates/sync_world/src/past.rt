//! The exchanges of the past.

ghost use Rattle.std.specs.Prelude.{◌≡◌, IfSome, List, option_copied};
ghost use Rattle.std.specs.List.{AllByRecursion};
ghost use Rattle.exchange_link.specs.Exchanges.{IsLate};
ghost use Rattle.status_info.specs.declared.request.Request.{Request as Asked};
ghost use Rattle.sync_world.specs.Given.{IsGiven};
ghost use Rattle.sync_world.specs.Planned.{past_at, reply_of, request_of};

use status_info::Request;

/// An exchange that was made: its number, its request, and the reply that came or would have come.
#[derive(Drop)]
pub struct Past {
    pub exchange: u64,
    pub request: Request,
    pub reply: Option<Vec<u8>>,
}

/// The request of an exchange, by its number.
pub fn request_at(past: &[Past], exchange: u64) -> Option<&Request>
    ensures { option_copied result ≡ request_of (past_at exchange past.now) }
{
    for made in past {
        if made.exchange == exchange {
            return Some(&made.request);
        }
    }
    None
}

/// The reply of an exchange, by its number, where there was one.
pub fn reply_at(past: &[Past], exchange: u64) -> Option<&[u8]>
    ensures exact { option_copied result ≡ reply_of (past_at exchange past.now) }
    ensures late { (sent : List Asked) → AllByRecursion (IsGiven sent) past.now → IfSome result (λ reply. IsLate sent reply.now) }
{
    for made in past {
        if made.exchange == exchange {
            return Some(made.reply.as_ref()?.as_slice());
        }
    }
    None
}
