// The sizes of lent tables, 15, and the ranges of their entries, 16.
ghost use Rattle.std.specs.Prelude.{◌≡◌, ◌<◌, ◌≤◌};
ghost use Rattle.tables.specs.Entry.{name_rows, instance_rows};
ghost use Rattle.ranges.specs.Range.{Counted, counts_ok, line_level_ok, times_ok, holder_ok, core_ok, standing_ok, sums_ok, bytes_ok, name_ok, instance_ok, up_to, in_range};
ghost use Rattle.ranges.specs.Range.{table_answer};
ghost use Rattle.ranges.specs.IndexCode.{name_tests};

use crate::placed::{home_at, row_placed, taken_places};
use crate::state::{of_semaphore, state_ok};
use steps::kind::is_process;
use steps::numbers::*;
use tables::entry::*;
use tables::size::sized;
use text::name::name;
use text::size::{CORE_LIMIT, MAX_TIME, NAME_LIMIT};

// The verdict and the line level's entries.
fn line_level_ok(nums: &[u32; NUMS_SIZE]) -> bool
    ensures { result ≡ line_level_ok nums.now }
{
    (nums[VERDICT] <= LAST_REFUSAL)
        & ((nums[VERDICT_LINE] <= VERDICT_LINE_LIMIT)
            & ((nums[LINES] <= LINE_LIMIT)
                & ((nums[SCALE] <= 5) & ((nums[CREATOR] <= 1) & (nums[DATE] <= 1)))))
}

// How many names, cores and instances there are.
fn counts_ok(nums: &[u32; NUMS_SIZE]) -> bool
    ensures { result ≡ counts_ok nums.now }
{
    (nums[STARTED] <= 1)
        & ((nums[NAMES] <= NAME_LIMIT)
            & ((nums[CORES] <= CORE_LIMIT) & (nums[INSTANCES] <= INSTANCE_LIMIT)))
}

// The first and the last time.
fn times_ok(ticks: &[u64; TICKS_SIZE]) -> bool
    ensures { result ≡ times_ok ticks.now }
{
    (ticks[LAST] <= MAX_TIME) & (ticks[FIRST] <= ticks[LAST])
}

// Whether an instance of the name in row p can hold a core: the name is there, and a process's.
fn holder_ok(nums: &[u32; NUMS_SIZE], p: u32) -> bool
    requires { Counted nums.now }
    ensures { result ≡ holder_ok nums.now p }
{
    if nums[NAMES] <= p {
        return false;
    }
    is_process(nums[KIND + p as usize])
}

// The state of a core: idle (1), or held by an instance of the process in row p (2 + p).
fn core_ok(nums: &[u32; NUMS_SIZE], standing: u32) -> bool
    requires { Counted nums.now }
    ensures { result ≡ core_ok nums.now standing }
{
    if standing < HELD_FROM {
        return standing == IDLE_CORE;
    }
    holder_ok(nums, standing - HELD_FROM)
}

// The state of a name by its kind: a core's; of a semaphore none yet (0) or one of its chart's; any other name has none. Most names have none,
// so that is asked first.
fn standing_ok(nums: &[u32; NUMS_SIZE], kind: u32, standing: u32) -> bool
    requires { Counted nums.now }
    ensures { result ≡ standing_ok nums.now kind standing }
{
    if standing == 0 {
        return kind != CORE;
    }
    if kind == CORE {
        return core_ok(nums, standing);
    }
    if kind == SEMAPHORE {
        return of_semaphore(standing);
    }
    false
}

// The tick sums and the time since of name i.
fn sums_ok(ticks: &[u64; TICKS_SIZE], i: usize) -> bool
    requires { i < name_rows }
    ensures { result ≡ sums_ok ticks.now i }
{
    (ticks[HELD + i] <= 0x4000_0000_0000_0000)
        & ((ticks[IDLE + i] <= 0x4000_0000_0000_0000)
            & ((ticks[UNKNOWN + i] <= 0x4000_0000_0000_0000) & (ticks[SINCE + i] <= ticks[LAST])))
}

// Whether the bytes of row i are a name of its length.
fn bytes_ok(names: &[u8; NAMES_SIZE], nums: &[u32; NUMS_SIZE], i: usize) -> bool
    requires { i < name_rows }
    ensures { result ≡ bytes_ok names.now nums.now i }
{
    let n = nums[LENGTH + i] as usize;
    if NAME_ROOM < n {
        return false;
    }
    let at = NAME_ROOM * i;
    let to = at + n;
    name(&names[at..to])
}

// The whole row of name i.
fn name_ok(
    names: &[u8; NAMES_SIZE],
    nums: &[u32; NUMS_SIZE],
    ticks: &[u64; TICKS_SIZE],
    i: usize,
) -> bool
    requires { (i < name_rows) × Counted nums.now }
    ensures { result ≡ name_ok names.now nums.now ticks.now i }
{
    let kind = nums[KIND + i];
    let standing = standing_ok(nums, kind, nums[STANDING + i]);
    let bytes = bytes_ok(names, nums, i);
    let sums = sums_ok(ticks, i);
    (CORE <= kind)
        & ((kind <= SEMAPHORE) & ((nums[NUMBERED + i] <= 1) & (standing & (bytes & sums))))
}

// The whole row of instance j.
fn instance_ok(nums: &[u32; NUMS_SIZE], j: usize) -> bool
    requires { (j < instance_rows) × Counted nums.now }
    ensures { result ≡ instance_ok nums.now j }
{
    let owner = nums[OWNER + j];
    if nums[NAMES] <= owner {
        return false;
    }
    state_ok(nums[KIND + owner as usize], nums[STATE + j])
}

// Whether the row of each of n names is in its range and is where it belongs in the index: in one loop, which is quicker than two.
fn names_ok(
    names: &[u8; NAMES_SIZE],
    nums: &[u32; NUMS_SIZE],
    ticks: &[u64; TICKS_SIZE],
    index: &[u32; PLACE_ROWS],
    n: usize,
) -> bool
    requires { (n ≤ name_rows) × Counted nums.now }
    ensures { result ≡ up_to (name_tests names.now nums.now ticks.now index.now) n }
{
    for i in 0..n {
        if !name_ok(names, nums, ticks, i) {
            return false;
        }
        let home = home_at(names, nums, i);
        if !row_placed(index, home, i) {
            return false;
        }
    }
    true
}

fn instances_ok(nums: &[u32; NUMS_SIZE], n: usize) -> bool
    requires { (n ≤ instance_rows) × Counted nums.now }
    ensures { result ≡ up_to (instance_ok nums.now) n }
{
    for j in 0..n {
        if !instance_ok(nums, j) {
            return false;
        }
    }
    true
}

// Whether every entry is in its range. The counts are tested first, since they tell how many rows there are to test. The index is right where each row is where it belongs and as many
// places are taken as there are rows.
fn in_range(names: &[u8; NAMES_SIZE], nums: &[u32; NUMS_SIZE], ticks: &[u64; TICKS_SIZE]) -> bool
    ensures { result ≡ in_range names.now nums.now ticks.now }
{
    if !counts_ok(nums) {
        return false;
    }
    let n = nums[NAMES] as usize;
    let m = nums[INSTANCES] as usize;
    let Some(index) = nums.last_chunk::<PLACE_ROWS>() else {
        unreachable!()
    };
    let rows = names_ok(names, nums, ticks, index, n) & instances_ok(nums, m);
    line_level_ok(nums) & (times_ok(ticks) & (rows & (taken_places(index) == n)))
}

// 15 for tables of a wrong size, 16 for an entry out of its range, else 0. It answers with the number, since whoever asks hands it on as the own answer.
pub fn table_answer(names: &[u8], nums: &[u32], ticks: &[u64]) -> u32
    ensures { result ≡ table_answer names.now nums.now ticks.now }
{
    if !sized(names.len(), nums.len(), ticks.len()) {
        return 15;
    }
    let Some(names) = names.as_array::<NAMES_SIZE>() else {
        unreachable!()
    };
    let Some(nums) = nums.as_array::<NUMS_SIZE>() else {
        unreachable!()
    };
    let Some(ticks) = ticks.as_array::<TICKS_SIZE>() else {
        unreachable!()
    };
    if in_range(names, nums, ticks) { 0 } else { 16 }
}
