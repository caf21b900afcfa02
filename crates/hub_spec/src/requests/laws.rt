//! What holds of the texts of requests. Each function here does nothing; its contract is a law.

ghost use Rattle.std.specs.Prelude.{◌≡◌, ◌<◌, ℤ, ℕ, List, Option};
ghost use Rattle.hub_spec.specs.requests.DeltaRequests.{delta_request};
ghost use Rattle.hub_spec.specs.requests.PageRequests.{CanAsk, page_request, query_bound};
ghost use Rattle.hub_spec.specs.requests.Requests.{AnswersRequest, wanted_by};
ghost use Rattle.hub_spec.specs.rules.Asking.{Asking, IsPageReply, asking};
ghost use Rattle.hub_spec.specs.rules.DeltaAsking.{IsDeltaReply, asking_from};
ghost use Rattle.hub_spec.specs.rules.States.{IsHub};
ghost use Rattle.status_info.specs.declared.reply.Reply.{Reply};
ghost use Rattle.status_info.specs.declared.request.Echo.{Echo};
ghost use Rattle.version_core.specs.HubStates.{HubState};

/// A consumer's request for a page, read again, wants that page.
pub fn a_page_request_wants_its_page()
    ensures { (ask : Asking) → CanAsk ask → (token : List ℕ) (echo : Option Echo) → wanted_by (page_request token ask echo) ≡ asking token ask echo }
{}

/// A consumer's request for a page leaves the state, and is answered with one of four: no grant has its token, its pin
/// can't be read, its scopes don't open the kind, or here is a page of the cut.
pub fn a_page_request_is_told_of_the_cut()
    ensures { (state : HubState) → IsHub state → (ask : Asking) → CanAsk ask → (token : List ℕ) (echo : Option Echo) (at : ℤ) (reply : Reply) (after : HubState) → AnswersRequest state (page_request token ask echo) at reply after → IsPageReply state token ask reply × (after ≡ state) }
{}

/// A consumer's request for a page of what differs from a base on, read again, wants that page.
pub fn a_delta_request_wants_its_page()
    ensures { (ask : Asking) → CanAsk ask → (base : ℕ) → base < query_bound → (token : List ℕ) (echo : Option Echo) → wanted_by (delta_request token ask base echo) ≡ asking_from token ask base echo }
{}

/// A consumer's request for a page of what differs leaves the state, and is answered with one of five: no grant has its
/// token, its pin or its base can't be read, its scopes don't open the kind, or here is a page of what differs between
/// the cuts.
pub fn a_delta_request_is_told_of_the_delta()
    ensures { (state : HubState) → IsHub state → (ask : Asking) → CanAsk ask → (base : ℕ) → base < query_bound → (token : List ℕ) (echo : Option Echo) (at : ℤ) (reply : Reply) (after : HubState)
        → AnswersRequest state (delta_request token ask base echo) at reply after → IsDeltaReply state token ask base reply × (after ≡ state) }
{}
