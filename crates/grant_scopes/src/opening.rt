//! What scopes open.

ghost use Rattle.std.specs.Prelude.{◌≡◌, ◌%◌, ◌==◌, ◌&&◌, map};
ghost use Rattle.grant_scopes.specs.Infos.{scope_of};
ghost use Rattle.grant_scopes.specs.Opens.{opens, opens_among, opens_by};

use crate::access::Access;
use crate::scope_info::ScopeInfo;
use crate::scopes::Scopes;
use roster_values::Kind;

// Whether the scope is in the set, by the lowest of these bits, and opens the access to the kind.
fn opens_first(scope: &ScopeInfo, bits: u8, kind: Kind, access: Access) -> bool
    ensures { result ≡ ((bits % 2 == 1) && opens_by kind access (scope_of scope.now)) }
{
    bits % 2 == 1 && scope.opens(kind, access)
}

// Whether one of the scopes whose bits are set, from bit 0 on, opens the access to the kind.
fn opens_among(scopes: &[ScopeInfo], bits: u8, kind: Kind, access: Access) -> bool
    ensures { result ≡ opens_among (map scope_of scopes.now) bits kind access }
{
    let mut left = bits;
    for scope in scopes {
        if opens_first(scope, left, kind, access) {
            return true;
        }
        left /= 2;
    }
    false
}

/// Whether one of the scopes opens the access to the kind.
#[tactic(auto, unfolding(crate::specs::Opens::opens))]
pub fn opens(scopes: Scopes, kind: Kind, access: Access) -> bool
    ensures { result ≡ opens scopes kind access }
{
    opens_among(ScopeInfo::all(), scopes.bits(), kind, access)
}
