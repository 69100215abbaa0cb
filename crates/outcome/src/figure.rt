// The figures of a row: what is stored, and the ticks since then as the core stands.
ghost use Rattle.std.specs.Prelude.{◌≡◌, ◌<◌, ◌≤◌};
ghost use Rattle.tables.specs.Entry.{name_count, name_rows};
ghost use Rattle.sheet.specs.Figure.{open_at, held_in, idle_in, holds_core, charge_in};

use steps::numbers::CORE;
use tables::entry::*;

// The ticks since the ticks of row i were stored.
fn open_ticks(ticks: &[u64; TICKS_SIZE], i: usize) -> u64
    requires { i < name_rows }
    ensures { result ≡ open_at ticks.now i }
{
    ticks[LAST].saturating_sub(ticks[SINCE + i])
}

// The held ticks of the core in row i.
pub(crate) fn held_ticks(nums: &[u32; NUMS_SIZE], ticks: &[u64; TICKS_SIZE], i: usize) -> u64
    requires { i < name_rows }
    ensures { result ≡ held_in nums.now ticks.now i }
{
    if nums[STANDING + i] < HELD_FROM {
        return ticks[HELD + i];
    }
    ticks[HELD + i].wrapping_add(open_ticks(ticks, i))
}

// The idle ticks of the core in row i.
pub(crate) fn idle_ticks(nums: &[u32; NUMS_SIZE], ticks: &[u64; TICKS_SIZE], i: usize) -> u64
    requires { i < name_rows }
    ensures { result ≡ idle_in nums.now ticks.now i }
{
    if nums[STANDING + i] != IDLE_CORE {
        return ticks[IDLE + i];
    }
    ticks[IDLE + i].wrapping_add(open_ticks(ticks, i))
}

// Whether row k is a core that is held by an instance of the process in row i.
fn holds_core(nums: &[u32; NUMS_SIZE], i: usize, k: usize) -> bool
    requires { (i < name_rows) × (k < name_rows) }
    ensures { result ≡ holds_core nums.now i k }
{
    (nums[KIND + k] == CORE) & (nums[STANDING + k] as usize == i + HELD_FROM as usize)
}

// The charge of the process in row i.
pub(crate) fn charge(nums: &[u32; NUMS_SIZE], ticks: &[u64; TICKS_SIZE], i: usize) -> u64
    requires { (i < name_rows) × (name_count nums.now ≤ name_rows) }
    ensures { result ≡ charge_in nums.now ticks.now i }
{
    let n = nums[NAMES] as usize;
    let mut sum = ticks[HELD + i];
    for k in 0..n {
        if holds_core(nums, i, k) {
            sum = sum.wrapping_add(open_ticks(ticks, k));
        }
    }
    sum
}
