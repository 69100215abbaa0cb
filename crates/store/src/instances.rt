// What is kept of an event's instance: its row is stored, or given back once it has terminated and its number alone tells that.
ghost use Rattle.std.specs.Prelude.{◌≡◌};
ghost use Rattle.store.specs.Store.{needs_row, put_row, given_back, with_entry};

use crate::entries::store_instance;
use steps::kind::with_instances;
use steps::numbers::*;
use tables::entry::*;

// Whether an instance of the name in row i needs a row: not where it is TERMINATED and numbered as the first activation or above it.
fn needs_row(nums: &[u32; NUMS_SIZE], i: usize, number: u32, state: u32) -> bool
    ensures { result ≡ needs_row nums.now i number state }
{
    if state != IS_TERMINATED {
        return true;
    }
    if NAME_ROWS <= i {
        return true;
    }
    if nums[NUMBERED + i] == 0 {
        return true;
    }
    number < nums[FIRST_NUMBER + i]
}

// An instance in the row found, or in the next one, which is counted where there is one.
fn put_row(nums: &mut [u32; NUMS_SIZE], row: Option<usize>, i: usize, number: u32, state: u32)
    ensures { nums.new ≡ put_row nums.old row i number state }
{
    if let Some(j) = row {
        store_instance(nums, j, i, number, state);
        return;
    }
    let n = nums[INSTANCES];
    if INSTANCE_LIMIT <= n {
        return;
    }
    store_instance(nums, n as usize, i, number, state);
    nums[INSTANCES] = n + 1;
}

// The row j given back: the last row moves into it. A core names its holder by name and number, so nothing else moves.
fn give_back(nums: &mut [u32; NUMS_SIZE], j: usize)
    ensures { nums.new ≡ given_back nums.old j }
{
    let n = nums[INSTANCES];
    if INSTANCE_ROWS <= j {
        return;
    }
    if n == 0 {
        return;
    }
    if INSTANCE_LIMIT < n {
        return;
    }
    let last = n as usize - 1;
    let owner = nums[OWNER + last];
    let number = nums[INSTANCE + last];
    let state = nums[STATE + last];
    nums[OWNER + j] = owner;
    nums[INSTANCE + j] = number;
    nums[STATE + j] = state;
    nums[INSTANCES] = n - 1;
}

// What is kept of the event's instance, of the name in row i.
pub(crate) fn store_entry(
    nums: &mut [u32; NUMS_SIZE],
    row: Option<usize>,
    i: usize,
    kind: u32,
    number: u32,
    state: u32,
)
    ensures { nums.new ≡ with_entry nums.old row i kind number state }
{
    if !with_instances(kind) {
        return;
    }
    if needs_row(nums, i, number, state) {
        put_row(nums, row, i, number, state);
        return;
    }
    if let Some(j) = row {
        give_back(nums, j);
    }
}
