// The rows of an event line's names: those that were found, and otherwise the next ones.
ghost use Rattle.std.specs.Prelude.{◌≡◌};
ghost use Rattle.lookup.specs.LookedUp.{new_core, new_name};
ghost use Rattle.store.specs.Store.{core_row, target_row};

use lookup::look::{LookedUp, rows_added};
use steps::kind::tracked;
use steps::numbers::NO_CORE;
use tables::entry::*;

// 1 where the line's core or target is new.
pub(crate) fn new_core(s: LookedUp) -> u32
    ensures { result ≡ new_core s }
{
    let row = s.source;
    rows_added(s.class != NO_CORE, row) as u32
}

pub(crate) fn new_name(s: LookedUp, kind: u32) -> u32
    ensures { result ≡ new_name s kind }
{
    let row = s.target;
    rows_added(tracked(kind), row) as u32
}

// The row of the line's core, found or the next one.
pub(crate) fn core_row(nums: &[u32; NUMS_SIZE], s: LookedUp) -> usize
    ensures { result ≡ core_row nums.now s }
{
    let row = s.source;
    match row {
        Some(i) => i,
        None => nums[NAMES] as usize,
    }
}

// The row of the line's target, found or the next one after its core's.
pub(crate) fn target_row(nums: &[u32; NUMS_SIZE], s: LookedUp) -> usize
    ensures { result ≡ target_row nums.now s }
{
    let row = s.target;
    let core = new_core(s);
    match row {
        Some(i) => i,
        None => nums[NAMES] as usize + core as usize,
    }
}
