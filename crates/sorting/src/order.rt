// The order of two names.
ghost use Rattle.std.specs.Prelude.{◌≡◌};
ghost use Rattle.sorting.specs.Order.{order};

use std::cmp::Ordering;

// How s stands to t: by the first byte that differs, and a beginning before what continues it.
#[tactic(auto, unfolding(crate::specs::Order::order))]
pub fn compare(s: &[u8], t: &[u8]) -> Ordering
    ensures { result ≡ order s.now t.now }
{
    s.cmp(t)
}
