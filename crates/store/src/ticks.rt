// The times and ticks after an event line.
ghost use Rattle.std.specs.Prelude.{◌≡◌, ◌-◌, if◌then◌else◌, nat_eq};
ghost use Rattle.store.specs.Store.{settled, with_times, with_sums, taken_ticks};

use crate::entries::store_sums;
use crate::rows::{core_row, new_core, new_name, target_row};
use lookup::look::LookedUp;
use std::num::wrapping_add_u64;
use steps::numbers::*;
use tables::entry::*;

// How much later a time is than another, 0 where it is not.
fn gap(time: u64, since: u64) -> u64
    ensures { result ≡ time - since }
{
    if time < since {
        return 0;
    }
    time - since
}

// The ticks before a core is tracked: none where this is the first event.
fn before_tracked(started: u32, first: u64, time: u64) -> u64
    ensures { result ≡ (if nat_eq started 0 then 0 else time - first) }
{
    if started == 0 {
        return 0;
    }
    gap(time, first)
}

// The ticks of the names that the line adds: those of a core before it was tracked are unknown.
fn store_all_sums(
    ticks: &mut [u64; TICKS_SIZE],
    nums: &[u32; NUMS_SIZE],
    s: LookedUp,
    kind: u32,
    time: u64,
)
    ensures { ticks.new ≡ with_sums ticks.old nums.now s kind time }
{
    let at = nums[NAMES] as usize;
    let row = target_row(nums, s);
    let unknown = before_tracked(nums[STARTED], ticks[FIRST], time);
    if new_core(s) == 1 {
        store_sums(ticks, at, unknown, time);
    }
    if new_name(s, kind) == 1 {
        store_sums(ticks, row, 0, 0);
    }
}

// The ticks since a core's last change go to its sum, and those it was held to its holder's charge.
fn settle(ticks: &mut [u64; TICKS_SIZE], class: u32, i: usize, p: usize, time: u64)
    ensures { ticks.new ≡ settled ticks.old class i p time }
{
    if NAME_ROWS <= i {
        return;
    }
    if NAME_ROWS <= p {
        return;
    }
    let more = gap(time, ticks[SINCE + i]);
    if class == TAKES_CORE {
        ticks[IDLE + i] = wrapping_add_u64(ticks[IDLE + i], more);
        ticks[SINCE + i] = time;
        return;
    }
    if class != GIVES_CORE {
        return;
    }
    ticks[HELD + i] = wrapping_add_u64(ticks[HELD + i], more);
    ticks[HELD + p] = wrapping_add_u64(ticks[HELD + p], more);
    ticks[SINCE + i] = time;
}

// The last time, and at the first event the first.
fn store_times(ticks: &mut [u64; TICKS_SIZE], started: u32, time: u64)
    ensures { ticks.new ≡ with_times ticks.old started time }
{
    if started == 0 {
        ticks[FIRST] = time;
    }
    ticks[LAST] = time;
}

// The times and ticks after an event line.
pub(crate) fn take_ticks(
    ticks: &mut [u64; TICKS_SIZE],
    nums: &[u32; NUMS_SIZE],
    s: LookedUp,
    kind: u32,
    time: u64,
)
    ensures { ticks.new ≡ taken_ticks ticks.old nums.now s kind time }
{
    let i = core_row(nums, s);
    let p = target_row(nums, s);
    store_all_sums(ticks, nums, s, kind, time);
    settle(ticks, s.class, i, p, time);
    store_times(ticks, nums[STARTED], time);
}
