// The places of new names in the index.
ghost use Rattle.std.specs.Prelude.{◌≡◌, ◌<◌, length, MatchOption};
ghost use Rattle.tables.specs.Entry.{place_rows};
ghost use Rattle.index.specs.Index.{free};
ghost use Rattle.store.specs.Store.{store_place, with_places};

use crate::rows::{new_core, new_name};
use index::hash::home_of;
use lookup::look::LookedUp;
use tables::entry::*;

// The first free place from home on.
fn free_place(index: &[u32], home: usize) -> Option<usize>
    requires { (length index.now ≡ place_rows) × (home < place_rows) }
    ensures { MatchOption result (free index.now home ≡ place_rows) (λ p. (p ≡ free index.now home) × (p < place_rows)) }
{
    for d in 0..PLACE_ROWS {
        let p = (home + d) % PLACE_ROWS;
        if index[p] == 0 {
            return Some(p);
        }
    }
    None
}

// The row of a new name goes into the index.
fn store_place(nums: &mut [u32; NUMS_SIZE], i: usize, home: usize)
    requires { home < place_rows }
    ensures { nums.new ≡ store_place nums.old i home }
{
    if NAME_ROWS <= i {
        return;
    }
    if let Some(p) = free_place(&nums[PLACE..PLACES_END], home) {
        nums[PLACE + p] = i as u32 + 1;
    }
}

// The places of the names that the line adds, in the rows i and p.
pub(crate) fn store_places(
    nums: &mut [u32; NUMS_SIZE],
    s: LookedUp,
    kind: u32,
    i: usize,
    p: usize,
    source: &[u8],
    target: &[u8],
)
    ensures { nums.new ≡ with_places nums.old s kind i p source.now target.now }
{
    if new_core(s) == 1 {
        store_place(nums, i, home_of(source));
    }
    if new_name(s, kind) == 1 {
        store_place(nums, p, home_of(target));
    }
}
