//! What holds of marked writes. Each function here does nothing; its contract is a law.

ghost use Rattle.std.specs.Prelude.{◌≡◌, ◌≤◌, ◌++◌, ℕ, ℤ, true, List, Option, Some, IfSome};
ghost use Rattle.std.specs.List.{AllByRecursion};
ghost use Rattle.std.specs.Str.{is_utf8};
ghost use Rattle.keeper_memory.specs.copy.Copies.{IsGradebook, NumbersRise};
ghost use Rattle.keeper_memory.specs.declared.copy.entry.OutEntry.{OutEntry};
ghost use Rattle.hub_spec.specs.rules.Answers.{Answers};
ghost use Rattle.hub_spec.specs.rules.Growth.{Grew};
ghost use Rattle.hub_spec.specs.rules.Wanted.{Wanted};
ghost use Rattle.hub_spec.specs.marks.Agreement.{IsCaller, IsOfEntry, MarksAgree};
ghost use Rattle.hub_spec.specs.marks.Alone.{NoMarkBehind, OnlySent};
ghost use Rattle.hub_spec.specs.marks.Answering.{IsWriteReply};
ghost use Rattle.hub_spec.specs.marks.Marked.{Marked, marked_by, marked_in};
ghost use Rattle.hub_spec.specs.marks.Sending.{write_request};
ghost use Rattle.roster_texts.specs.Texts.{is_id};
ghost use Rattle.status_info.specs.declared.reply.Reply.{Reply};
ghost use Rattle.status_info.specs.declared.request.Echo.{Echo};
ghost use Rattle.status_info.specs.declared.request.Request.{Request};
ghost use Rattle.version_core.specs.HubStates.{HubState};

/// A marked write is answered with one of four, of which only the last shows a mark: no grant has its token, its scopes
/// don't open the access, its mark is held with another write, or here is what is kept under the mark.
pub fn a_marked_write_is_answered()
    ensures { (state : HubState) (wanted : Wanted) (marked : Marked) (at : ℤ) (reply : Reply) (next : HubState) → marked_in wanted ≡ Some marked
        → Answers state wanted at reply next → IsWriteReply state wanted.token marked reply next }
{}

/// The request that sends a marked write, read again, has that write and its mark, whatever its id.
pub fn a_write_request_is_read_as_its_write()
    ensures { (token : List ℕ) (marked : Marked) (echo : Option Echo) → IsGradebook marked.write.kind → is_utf8 marked.write.id ≡ true → is_id marked.write.id ≡ true
        → marked_by (write_request token marked echo) ≡ Some marked }
{}

/// The agreement is kept by all that a hub does, and by requests that carry an entry which is settled or is the first
/// that isn't, or no mark.
pub fn traffic_keeps_the_agreement()
    ensures { (entries : List OutEntry) (last : ℕ) (before after : HubState) (more sent : List Request) → Grew before after
        → AllByRecursion (λ request. IfSome (marked_by request) (λ marked. IsOfEntry marked entries × (marked.number ≤ last))) more
        → MarksAgree entries last before sent → MarksAgree entries last after (more ++ sent) }
{}

/// Where nobody else marks writes for a caller, no mark is held for an entry behind the first that isn't settled.
pub fn no_mark_is_held_behind_the_first()
    ensures { (caller : List ℕ) (entries : List OutEntry) (last : ℕ) (state : HubState) (sent : List Request) → NumbersRise 0 entries → MarksAgree entries last state sent
        → IsCaller caller state sent → OnlySent caller state sent → NoMarkBehind state caller entries }
{}
