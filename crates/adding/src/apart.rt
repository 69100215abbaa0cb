// Two sections, each in the order of its names, walked side by side.
ghost use Rattle.std.specs.Prelude.{◌≡◌, true, map};
ghost use Rattle.sorting.specs.Sets.{meets, rising};
ghost use Rattle.paper.specs.Lines.{name_at};

use paper::line::name_at;
use sorting::order::compare;
use std::cmp::Ordering;

// Whether some name stands in both of two sections.
pub(crate) fn meet(s: &[u8], left: &[u32], t: &[u8], right: &[u32]) -> bool
    requires { (rising (map (name_at s.now) left.now) ≡ true) × (rising (map (name_at t.now) right.now) ≡ true) }
    ensures { result ≡ meets (map (name_at s.now) left.now) (map (name_at t.now) right.now) }
{
    let mut i = 0;
    let mut j = 0;
    // not a `for`: a turn goes on in one section or in the other, by what is found there
    while i < left.len() && j < right.len() {
        match compare(name_at(s, left[i]), name_at(t, right[j])) {
            Ordering::Less => i += 1,
            Ordering::Equal => return true,
            Ordering::Greater => j += 1,
        }
    }
    false
}
