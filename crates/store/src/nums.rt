// The numbers and states after an event line.
ghost use Rattle.std.specs.Prelude.{◌≡◌};
ghost use Rattle.rules.specs.Lines.{event_from};
ghost use Rattle.store.specs.Store.{with_rows, with_target, with_core, with_counts, taken_entries, taken_nums};

use crate::entries::{store_activation, store_holder, store_number, store_row, store_standing};
use crate::instances::store_entry;
use crate::places::store_places;
use crate::rows::*;
use line::event::Event;
use lookup::look::LookedUp;
use std::num::wrapping_add_u32;
use steps::kind::numbers_instance;
use steps::lines::kind_number;
use steps::numbers::*;
use tables::entry::*;
use words::code::action_code;

// The numbers of the names that the line adds; n and m are the lengths of its source and target.
fn store_rows(nums: &mut [u32; NUMS_SIZE], s: LookedUp, kind: u32, n: usize, m: usize)
    ensures { nums.new ≡ with_rows nums.old s kind n m }
{
    let at = nums[NAMES] as usize;
    let row = target_row(nums, s);
    if new_core(s) == 1 {
        store_row(nums, at, CORE, n);
    }
    if new_name(s, kind) == 1 {
        store_row(nums, row, kind, m);
    }
}

// What the event's target is from now on: a semaphore's state and count, the number of an activation.
fn store_target(
    nums: &mut [u32; NUMS_SIZE],
    i: usize,
    state: u32,
    kind: u32,
    word: u32,
    number: u32,
    count: u32,
)
    ensures { nums.new ≡ with_target nums.old i state kind word number count }
{
    if kind == SEMAPHORE {
        store_standing(nums, i, state);
        store_number(nums, i, count);
        return;
    }
    if numbers_instance(kind, word) {
        store_activation(nums, i, number);
    }
}

// What the core is from now on.
fn store_core(nums: &mut [u32; NUMS_SIZE], class: u32, i: usize, p: usize, number: u32)
    ensures { nums.new ≡ with_core nums.old class i p number }
{
    if class == NO_CORE {
        return;
    }
    if class == GIVES_CORE {
        store_standing(nums, i, IDLE_CORE);
        return;
    }
    store_holder(nums, i, p, number);
}

// One line and so many names and cores more, and an event was taken.
fn store_counts(nums: &mut [u32; NUMS_SIZE], names: u32, cores: u32)
    ensures { nums.new ≡ with_counts nums.old names cores }
{
    nums[LINES] = wrapping_add_u32(nums[LINES], 1);
    nums[STARTED] = 1;
    nums[NAMES] = wrapping_add_u32(nums[NAMES], names);
    nums[CORES] = wrapping_add_u32(nums[CORES], cores);
}

// All after an event line but the places of new names.
fn take_entries(
    nums: &mut [u32; NUMS_SIZE],
    s: LookedUp,
    state: u32,
    e: Event,
    count: u32,
    source: &[u8],
    target: &[u8],
)
    ensures { nums.new ≡ taken_entries nums.old s state (event_from e source.now target.now count) }
{
    let e_kind = e.kind;
    let action = e.action;
    let kind = kind_number(e_kind);
    let word = action_code(action);
    let i = core_row(nums, s);
    let p = target_row(nums, s);
    let row = s.instance;
    let core = new_core(s);
    let name = new_name(s, kind);
    store_rows(nums, s, kind, source.len(), target.len());
    store_target(nums, p, state, kind, word, e.target_instance, count);
    store_core(nums, s.class, i, p, e.target_instance);
    store_counts(nums, core + name, core);
    store_entry(nums, row, p, kind, e.target_instance, state);
}

// The numbers and states after an event line.
pub(crate) fn take_nums(
    nums: &mut [u32; NUMS_SIZE],
    s: LookedUp,
    state: u32,
    e: Event,
    count: u32,
    source: &[u8],
    target: &[u8],
)
    ensures { nums.new ≡ taken_nums nums.old s state (event_from e source.now target.now count) }
{
    let e_kind = e.kind;
    let kind = kind_number(e_kind);
    let i = core_row(nums, s);
    let p = target_row(nums, s);
    take_entries(nums, s, state, e, count, source, target);
    store_places(nums, s, kind, i, p, source, target);
}
