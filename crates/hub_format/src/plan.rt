//! When a store lets its oldest change go.

ghost use Rattle.std.specs.Prelude.{◌≡◌, ◌-◌, nat_lt};

/// Whether the oldest change goes into the base where this version is added to a store that keeps so many beside the
/// newest.
pub fn lets_go(keep: u64, base: u64, version: u64) -> bool
    ensures { result ≡ nat_lt keep (version - base) }
{
    keep < version.saturating_sub(base)
}
