// Single stores: the entries of a name, of an instance, of a core or semaphore. A row past the end of its column is not stored.
ghost use Rattle.std.specs.Prelude.{◌≡◌};
ghost use Rattle.store.specs.Store.{store_name, store_row, store_sums, store_instance, store_standing, store_holder, store_number, store_activation};

use tables::entry::*;
use text::put::put_bytes;

// The bytes of a new name.
pub(crate) fn store_name(names: &mut [u8; NAMES_SIZE], i: usize, name: &[u8])
    ensures { names.new ≡ store_name names.old i name.now }
{
    if NAME_ROWS <= i {
        return;
    }
    put_bytes(name, names, NAME_ROOM * i);
}

// The numbers of a new name.
pub(crate) fn store_row(nums: &mut [u32; NUMS_SIZE], i: usize, kind: u32, n: usize)
    ensures { nums.new ≡ store_row nums.old i kind n }
{
    if NAME_ROWS <= i {
        return;
    }
    nums[KIND + i] = kind;
    nums[LENGTH + i] = (n % 4294967296) as u32;
    nums[STANDING + i] = 0;
    nums[NUMBER + i] = 0;
    nums[NUMBERED + i] = 0;
    nums[FIRST_NUMBER + i] = 0;
}

// The ticks of a new name.
pub(crate) fn store_sums(ticks: &mut [u64; TICKS_SIZE], i: usize, unknown: u64, since: u64)
    ensures { ticks.new ≡ store_sums ticks.old i unknown since }
{
    if NAME_ROWS <= i {
        return;
    }
    ticks[HELD + i] = 0;
    ticks[IDLE + i] = 0;
    ticks[UNKNOWN + i] = unknown;
    ticks[SINCE + i] = since;
}

// An instance.
pub(crate) fn store_instance(
    nums: &mut [u32; NUMS_SIZE],
    j: usize,
    owner: usize,
    number: u32,
    state: u32,
)
    ensures { nums.new ≡ store_instance nums.old j owner number state }
{
    if INSTANCE_ROWS <= j {
        return;
    }
    if NAME_ROWS <= owner {
        return;
    }
    nums[OWNER + j] = owner as u32;
    nums[INSTANCE + j] = number;
    nums[STATE + j] = state;
}

// A state of a semaphore or core.
pub(crate) fn store_standing(nums: &mut [u32; NUMS_SIZE], i: usize, standing: u32)
    ensures { nums.new ≡ store_standing nums.old i standing }
{
    if NAME_ROWS <= i {
        return;
    }
    nums[STANDING + i] = standing;
}

// The holder of a core: the row of its name, and its number.
pub(crate) fn store_holder(nums: &mut [u32; NUMS_SIZE], i: usize, p: usize, number: u32)
    ensures { nums.new ≡ store_holder nums.old i p number }
{
    if NAME_ROWS <= i {
        return;
    }
    if NAME_ROWS <= p {
        return;
    }
    nums[STANDING + i] = p as u32 + HELD_FROM;
    nums[NUMBER + i] = number;
}

// A last number or count.
pub(crate) fn store_number(nums: &mut [u32; NUMS_SIZE], i: usize, n: u32)
    ensures { nums.new ≡ store_number nums.old i n }
{
    if NAME_ROWS <= i {
        return;
    }
    nums[NUMBER + i] = n;
    nums[NUMBERED + i] = 1;
}

// The number of an activation or start, the first one too.
pub(crate) fn store_activation(nums: &mut [u32; NUMS_SIZE], i: usize, n: u32)
    ensures { nums.new ≡ store_activation nums.old i n }
{
    if NAME_ROWS <= i {
        return;
    }
    if nums[NUMBERED + i] == 0 {
        nums[FIRST_NUMBER + i] = n;
    }
    store_number(nums, i, n);
}
