//! The link to a hub.

ghost use Rattle.std.specs.Prelude.{◌≡◌, ◌⊎◌, ◌≤◌, ℕ, List, [], IfSome, OnErr, OnOk, Err};
ghost use Rattle.roster_base.specs.Faults.{Rose, one_more};
ghost use Rattle.outside_ports.specs.declared.failed.IoError.TheVariants as io_error;
ghost use Rattle.status_info.specs.declared.request.Request.{Request};

use http_wire::WireReply;
use outside_ports::IoError;
use std::alloc::Global;

/// Carries a consumer's requests to its hub, and the replies back. Requests and replies may get lost, and older replies
/// may come late. A link *tells* of its hub where the hub is known to the proof, as one in the same program is. One
/// over a socket tells nothing: clauses that speak of what is told say nothing of it.
pub trait Link {
    ghost use Rattle.exchange_link.specs.Exchanges.{Carries, Exchanged, IsTextOf, IsSentText, Misses, LinkState};
    ghost use Rattle.http_wire.specs.Answers.{IsReplyText};
    ghost use Rattle.hub_spec.specs.rules.States.{IsHub};

    /// The number of exchanges, up to the end of `u64`.
    ghost asked: { Self → ℕ };

    /// The number of exchanges in a row, up to the last one, at which the count of faults rose.
    ghost missed: { Self → ℕ };

    /// The answer of the last exchange; nothing before the first one and after an error.
    ghost kept: { Self → List ℕ };

    /// How many exchanges failed, or brought another reply than the own one. The count stays at the end of `u64`.
    ghost fault_count: { Self → ℕ };

    /// What it tells of its hub; nothing is told over a socket.
    ghost tells: { Self → LinkState → Type 0 };

    /// What exchanges, one behind another, may make of a link.
    ghost leads: { Self → Self → Type 0 };

    /// Sends the text of a request with its number, and keeps the answer. It fails where no answer came or memory ran
    /// out; then nothing is kept.
    fn exchange(&mut self, alloc: Global, request: &[u8]) -> Result<(), IoError>
        requires { IsSentText request.now }
        ensures asked { asked self.new ≡ one_more (asked self.old) }
        ensures missed { Misses (Rose (fault_count self.old) (fault_count self.new)) (missed self.old) (missed self.new) }
        ensures later { fault_count self.old ≤ fault_count self.new }
        ensures leads { leads self.old self.new }
        ensures failed { result ≡ Err io_error.Failed → Rose (fault_count self.old) (fault_count self.new) }
        ensures kept { OnErr result (kept self.new ≡ []) }
        // Also where the link tells nothing: an answer without the request's number comes only where the count rose.
        ensures own { (q : Request) → IsTextOf q request.now
            → OnOk result (Carries (kept self.new) q.echo ⊎ Rose (fault_count self.old) (fault_count self.new)) }
        ensures told { (q : Request) → IsTextOf q request.now → (after : LinkState) → tells self.new after
            → (before : LinkState) × tells self.old before
            × Exchanged q result (Rose (fault_count self.old) (fault_count self.new)) (kept self.new) before after };

    /// The bytes of the answer that is kept; no memory is taken.
    fn reply(&self) -> &[u8]
        ensures { result.now ≡ kept self.now };

    /// Takes the reply that was read from the kept answer, where the link has read it and it wasn't taken yet. The
    /// answer stays as it is, so that a clause sees no change.
    fn take_parsed(&mut self) -> Option<WireReply>
        ensures same { self.new ≡ self.old }
        ensures reads { IfSome result (λ w. IsReplyText (kept self.old) w) }
    {
        None
    }

    /// The number of exchanges in a row, up to the last one, at which the count of faults rose.
    fn missed(&self) -> u64
        ensures { result ≡ missed self.now };

    /// The count of faults.
    fn faults(&self) -> u64
        ensures { result ≡ fault_count self.now };

    /// What it tells of its hub is a state that a hub can have.
    ghost is_hub: { (link : Self) (told : LinkState) → tells link told → IsHub told.hub };

    /// A link leads to itself.
    ghost stays: { (link : Self) → leads link link };

    /// What leads from one link to a second, and on from there to a third, leads from the first to the third.
    ghost leads_on: { (one two three : Self) → leads one two → leads two three → leads one three };
}
