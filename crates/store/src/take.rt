// What taking an event line stores. Nothing is decided here.
ghost use Rattle.std.specs.Prelude.{◌≡◌};
ghost use Rattle.rules.specs.Lines.{event_from};
ghost use Rattle.tables.specs.Entry.{tables};
ghost use Rattle.store.specs.Store.{taken_names, taken_tables, stored};

use crate::entries::store_name;
use crate::nums::take_nums;
use crate::rows::{new_core, new_name, target_row};
use crate::ticks::take_ticks;
use line::event::Event;
use lookup::look::LookedUp;
use steps::lines::kind_number;
use tables::entry::*;

// The bytes of the names that the line adds.
fn take_names(
    names: &mut [u8; NAMES_SIZE],
    nums: &[u32; NUMS_SIZE],
    s: LookedUp,
    kind: u32,
    source: &[u8],
    target: &[u8],
)
    ensures { names.new ≡ taken_names names.old nums.now s kind source.now target.now }
{
    let at = nums[NAMES] as usize;
    let row = target_row(nums, s);
    if new_core(s) == 1 {
        store_name(names, at, source);
    }
    if new_name(s, kind) == 1 {
        store_name(names, row, target);
    }
}

// The three tables after an event line: names and ticks first, since they ask nums for the rows as they were.
fn take_in(
    names: &mut [u8; NAMES_SIZE],
    nums: &mut [u32; NUMS_SIZE],
    ticks: &mut [u64; TICKS_SIZE],
    s: LookedUp,
    state: u32,
    e: Event,
    count: u32,
    source: &[u8],
    target: &[u8],
)
    ensures { tables names.new nums.new ticks.new
        ≡ taken_tables (tables names.old nums.old ticks.old) s state
        (event_from e source.now target.now count) }
{
    let e_kind = e.kind;
    let kind = kind_number(e_kind);
    take_names(names, nums, s, kind, source, target);
    take_ticks(ticks, nums, s, kind, e.time);
    take_nums(nums, s, state, e, count, source, target);
}

// Takes an event line into any tables: where one has a wrong size, nothing changes.
pub fn take(
    names: &mut [u8],
    nums: &mut [u32],
    ticks: &mut [u64],
    s: LookedUp,
    state: u32,
    e: Event,
    count: u32,
    source: &[u8],
    target: &[u8],
)
    ensures { tables names.new nums.new ticks.new
        ≡ stored (tables names.old nums.old ticks.old) s state
        (event_from e source.now target.now count) }
{
    let Some(names) = names.as_mut_array::<NAMES_SIZE>() else {
        return;
    };
    let Some(nums) = nums.as_mut_array::<NUMS_SIZE>() else {
        return;
    };
    let Some(ticks) = ticks.as_mut_array::<TICKS_SIZE>() else {
        return;
    };
    take_in(names, nums, ticks, s, state, e, count, source, target);
}
