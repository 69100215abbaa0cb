// Single entries that the rules ask for, out of the rows that were looked up; 0 where there is no row.
ghost use Rattle.std.specs.Prelude.{◌≡◌, not, eqb, ◌+◌, ◌≤◌};
ghost use Rattle.tables.specs.Entry.{nums_size, column, state_column};
ghost use Rattle.decide.specs.Known.{entry_of, kind_in, standing_in, number_in, numbered_in, first_number_in, state_in};

use lookup::look::LookedUp;
use steps::numbers::SEMAPHORE;
use tables::entry::*;

// An entry of the column that begins at base, in the row found; rows is how many the column has.
fn entry(nums: &[u32; NUMS_SIZE], base: usize, rows: usize, f: Option<usize>) -> u32
    requires { base + rows ≤ nums_size }
    ensures { result ≡ entry_of (column base rows) nums.now f }
{
    let Some(i) = f else {
        return 0;
    };
    if rows <= i {
        return 0;
    }
    nums[base + i]
}

// The kind of the name in a row.
pub(crate) fn kind_in(nums: &[u32; NUMS_SIZE], f: Option<usize>) -> u32
    ensures { result ≡ kind_in nums.now f }
{
    entry(nums, KIND, NAME_ROWS, f)
}

// The state of the core or semaphore in a row.
pub(crate) fn standing_in(nums: &[u32; NUMS_SIZE], f: Option<usize>) -> u32
    ensures { result ≡ standing_in nums.now f }
{
    entry(nums, STANDING, NAME_ROWS, f)
}

// The state of the instance in a row.
fn instance_state(nums: &[u32; NUMS_SIZE], f: Option<usize>) -> u32
    ensures { result ≡ entry_of state_column nums.now f }
{
    entry(nums, STATE, INSTANCE_ROWS, f)
}

// The state of an event line's semaphore or instance.
pub(crate) fn state_in(nums: &[u32; NUMS_SIZE], s: LookedUp, kind: u32) -> u32
    ensures { result ≡ state_in nums.now s kind }
{
    let target = s.target;
    let instance = s.instance;
    if kind == SEMAPHORE {
        return standing_in(nums, target);
    }
    instance_state(nums, instance)
}

// Whether the name in a row has a last number or count, and that number.
pub(crate) fn numbered_in(nums: &[u32; NUMS_SIZE], f: Option<usize>) -> bool
    ensures { result ≡ not (eqb (numbered_in nums.now f) 0) }
{
    entry(nums, NUMBERED, NAME_ROWS, f) != 0
}

pub(crate) fn number_in(nums: &[u32; NUMS_SIZE], f: Option<usize>) -> u32
    ensures { result ≡ number_in nums.now f }
{
    entry(nums, NUMBER, NAME_ROWS, f)
}

// The first number of the process or runnable in a row.
pub(crate) fn first_number_in(nums: &[u32; NUMS_SIZE], f: Option<usize>) -> u32
    ensures { result ≡ first_number_in nums.now f }
{
    entry(nums, FIRST_NUMBER, NAME_ROWS, f)
}
