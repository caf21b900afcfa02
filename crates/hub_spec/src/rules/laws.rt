//! What holds of the hub as it is defined. Each function here does nothing; its contract is a law.

ghost use Rattle.std.specs.Prelude.{◌≡◌, ℕ, ℤ, List, Option, drop, false, true};
ghost use Rattle.version_changes.specs.grants.Next.{IsNext};
ghost use Rattle.hub_spec.specs.rules.Answers.{Answers};
ghost use Rattle.hub_spec.specs.rules.Asking.{Asking, IsPageReply, asking};
ghost use Rattle.hub_spec.specs.rules.DeltaAsking.{IsDeltaReply, asking_from};
ghost use Rattle.hub_spec.specs.rules.Growth.{GrowsBy, Grew, IsNewMark, IsRunMark};
ghost use Rattle.hub_spec.specs.rules.Runs.{Answer, Command, Runs, Step, Steps, end_of};
ghost use Rattle.hub_spec.specs.rules.States.{AreCommands, IsCommand, IsHub, ReadsAs};
ghost use Rattle.hub_spec.specs.rules.Verdicts.{Judges, Leads, Verdict, newest_in};
ghost use Rattle.hub_spec.specs.rules.Views.{SameToReader, SameToWriter};
ghost use Rattle.hub_spec.specs.rules.Wanted.{Wanted, is_write};
ghost use Rattle.status_info.specs.declared.reply.Reply.{Reply};
ghost use Rattle.status_info.specs.declared.request.Echo.{Echo};
ghost use Rattle.version_core.specs.HubStates.{HubState, IsHubState, oldest_number};
ghost use Rattle.version_core.specs.declared.change.BaseVersion.{BaseVersion};
ghost use Rattle.version_core.specs.declared.grant_row.GrantRow.{GrantRow};
ghost use Rattle.version_core.specs.declared.mark.MarkRow.{MarkRow};
ghost use Rattle.version_core.specs.declared.mark.Write.{Write};

/// A write has one verdict.
pub fn a_write_has_one_verdict()
    ensures { (state : HubState) (by : GrantRow) (mark : Option ℕ) (write : Write) (at : ℤ) (one other : Verdict) → Judges state by mark write at one → Judges state by mark write at other → one ≡ other }
{}

/// A request has one answer at a state and a moment, and leads to one state.
pub fn a_request_has_one_answer()
    ensures { (before : HubState) (wanted : Wanted) (at : ℤ) (one other : Reply) (after after_other : HubState) → Answers before wanted at one after → Answers before wanted at other after_other → (one ≡ other) × (after ≡ after_other) }
{}

/// A request that is no write leaves the state.
pub fn a_read_leaves_the_state()
    ensures { (before : HubState) (wanted : Wanted) (at : ℤ) (reply : Reply) (after : HubState) → is_write wanted.verb ≡ false → Answers before wanted at reply after → after ≡ before }
{}

/// A consumer's request for a page is answered with one of four: no grant has its token, its pin can't be read, its
/// scopes don't open the kind, or here is a page of the cut of the version that is read to the token.
pub fn a_consumer_is_told_of_the_cut()
    ensures { (state : HubState) → IsHub state → (token : List ℕ) (ask : Asking) (echo : Option Echo) (at : ℤ) (reply : Reply) (after : HubState) → Answers state (asking token ask echo) at reply after → IsPageReply state token ask reply × (after ≡ state) }
{}

/// A consumer's request for what differs from a base on is answered with one of five: no grant has its token, its pin
/// or its base can't be read, its scopes don't open the kind, or here is a page of what differs between the cuts of
/// both versions to the token.
pub fn a_consumer_is_told_of_the_delta()
    ensures { (state : HubState) → IsHub state → (token : List ℕ) (ask : Asking) (base : ℕ) (echo : Option Echo) (at : ℤ) (reply : Reply) (after : HubState) → Answers state (asking_from token ask base echo) at reply after → IsDeltaReply state token ask base reply × (after ≡ state) }
{}

/// In a step a state grows, and a mark that is new is that of the request which the step takes.
pub fn a_step_lets_the_state_grow()
    ensures { (command : Command) (before : HubState) (answer : Answer) (after : HubState) (failed : ℕ) → Steps command before answer after failed → GrowsBy command before after }
{}

/// In a run a state grows.
pub fn a_run_lets_the_state_grow()
    ensures { (before : HubState) (steps : List Step) (faults : ℕ) → Runs before steps faults → Grew before (end_of before steps) }
{}

/// A mark that a run put there is that of a request which it took.
pub fn a_run_keeps_marks_of_its_requests()
    ensures { (before : HubState) (steps : List Step) (faults : ℕ) → Runs before steps faults → (caller : List ℕ) (number : ℕ) (mark : MarkRow) → IsNewMark before (end_of before steps) caller number mark → IsRunMark before steps (end_of before steps) caller number mark }
{}

/// A step leads from a state that a hub can have to another.
pub fn a_step_keeps_a_hub()
    ensures { (before : HubState) → IsHub before → (command : Command) → IsCommand command → (answer : Answer) (after : HubState) (failed : ℕ) → Steps command before answer after failed → IsHub after }
{}

/// A run leads from a state that a hub can have to another.
pub fn a_run_keeps_a_hub()
    ensures { (before : HubState) → IsHub before → (steps : List Step) (faults : ℕ) → AreCommands steps → Runs before steps faults → IsHub (end_of before steps) }
{}

/// A write leads to a version that may stand behind the newest.
pub fn a_verdict_leads_to_a_next_version()
    ensures { (state : HubState) → IsHub state → (by : GrantRow) (mark : Option ℕ) (write : Write) (at : ℤ) (next : BaseVersion) → Judges state by mark write at (Leads next) → IsNext (newest_in state) next }
{}

/// A read gets equal replies at two states that are one to its reader.
pub fn a_read_tells_of_no_more_than_is_seen()
    ensures { (wanted : Wanted) (one other : HubState) → SameToReader wanted one other → is_write wanted.verb ≡ false → (at at_other : ℤ) (reply reply_other : Reply) (after after_other : HubState) → Answers one wanted at reply after → Answers other wanted at_other reply_other after_other → reply ≡ reply_other }
{}

/// A write gets equal replies at two states that are one to its writer.
pub fn a_write_tells_of_no_more_than_is_known()
    ensures { (wanted : Wanted) (one other : HubState) → IsHubState one → IsHubState other → SameToWriter wanted one other → is_write wanted.verb ≡ true → (at : ℤ) (reply reply_other : Reply) (after after_other : HubState) → Answers one wanted at reply after → Answers other wanted at reply_other after_other → reply ≡ reply_other }
{}

/// A request has an answer at each state and moment.
pub fn a_request_has_an_answer()
    ensures { (before : HubState) (wanted : Wanted) (at : ℤ) → (reply : Reply) × (after : HubState) × Answers before wanted at reply after }
{}

/// What is read of a state is read of its kept versions.
pub fn a_state_is_read_of_its_kept_versions()
    ensures { (state : HubState) → IsHubState state → (versions : List BaseVersion) → drop (oldest_number state) state.published ≡ versions → ReadsAs state versions }
{}
