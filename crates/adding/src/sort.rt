// Rows put in the order of their names. A row is known by the place where its line begins.
ghost use Rattle.std.specs.Prelude.{◌≡◌, true, ◌∷◌, ◌++◌, map, ◌+◌, ◌≤◌, ◌<◌, length, take, drop};
ghost use Rattle.sorting.specs.Sets.{rising};
ghost use Rattle.paper.specs.Lines.{name_at};
ghost use Rattle.adding.specs.SortCode.{Inserted, Sorting};

use paper::line::name_at;
use sorting::order::compare;

// Puts p before the entry k of the first n, of which those from k on move up.
fn put_at(places: &mut [u32], n: usize, k: usize, p: u32)
    requires { (k ≤ n) × (n < length places.old) }
    ensures { (length places.new ≡ length places.old)
        × (take (n + 1) places.new ≡ take k places.old ++ p ∷ drop k (take n places.old)) }
{
    places.copy_within(k..n, k + 1);
    places[k] = p;
}

// Puts the row at p among the first n, which are in order, and answers whether its name is none of theirs; if it is one, nothing changes.
fn insert(text: &[u8], places: &mut [u32], n: usize, p: u32) -> bool
    requires { (n < length places.old) × (rising (map (name_at text.now) (take n places.old)) ≡ true) }
    ensures { (length places.new ≡ length places.old)
        × Inserted text.now (take n places.old) p places.new result }
{
    let name = name_at(text, p);
    let found = places[..n].binary_search_by(|q| compare(name_at(text, *q), name));
    let Err(k) = found else {
        return false;
    };
    put_at(places, n, k, p);
    true
}

// Puts the places of rows in the order of their names, and answers whether none stands twice. The last row comes first.
pub(crate) fn sort(text: &[u8], places: &[u32], sorted: &mut [u32]) -> bool
    requires { length places.now ≤ length sorted.old }
    ensures { (length sorted.new ≡ length sorted.old)
        × Sorting text.now places.now sorted.new result }
{
    let n = places.len();
    // not `iter().rev().enumerate()`, of which it is not proved that its count fits
    for i in (0..n).rev() {
        if !insert(text, sorted, n - 1 - i, places[i]) {
            return false;
        }
    }
    true
}
