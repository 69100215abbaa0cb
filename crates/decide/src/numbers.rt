// The refusals of an event line for a number: 11 and 12 for that of its instance, and 14 for a semaphore's count.
ghost use Rattle.std.specs.Prelude.{◌≡◌};
ghost use Rattle.rules.specs.Refusals.{count_allowed};
ghost use Rattle.decide.specs.PlanCode.{reaches_first, is_next_in, never_activated_in, not_next_in, count_follows_in, least_count, count_broken_in};

use crate::known::{first_number_in, number_in, numbered_in, state_in};
use lookup::look::{LookedUp, above_all};
use steps::kind::{numbers_instance, with_instances};
use steps::numbers::SEMAPHORE;
use tables::entry::*;
use words::code::*;

// Whether the process or runnable in a row has a first number, and the number is that one or above it.
pub(crate) fn reaches_first(nums: &[u32; NUMS_SIZE], row: Option<usize>, number: u32) -> bool
    ensures { result ≡ reaches_first nums.now row number }
{
    if !numbered_in(nums, row) {
        return false;
    }
    first_number_in(nums, row) <= number
}

// Whether a number is one that the next activation has to bear: the last one plus 1, and of the first activation one above all seen.
pub(crate) fn is_next(nums: &[u32; NUMS_SIZE], row: Option<usize>, number: u32) -> bool
    ensures { result ≡ is_next_in nums.now row number }
{
    if !numbered_in(nums, row) {
        return above_all(nums, row, number);
    }
    number as u64 == number_in(nums, row) as u64 + 1
}

// 11: whether this is the first event of an instance, numbered as the first activation or higher, and does not activate it.
pub(crate) fn never_activated(
    nums: &[u32; NUMS_SIZE],
    s: LookedUp,
    kind: u32,
    word: u32,
    number: u32,
) -> bool
    ensures { result ≡ never_activated_in nums.now s kind word number }
{
    let row = s.target;
    if state_in(nums, s, kind) != 0 {
        return false;
    }
    if !with_instances(kind) {
        return false;
    }
    if numbers_instance(kind, word) {
        return false;
    }
    reaches_first(nums, row, number)
}

// 12: whether the instance number is not the next.
pub(crate) fn not_next(
    nums: &[u32; NUMS_SIZE],
    s: LookedUp,
    kind: u32,
    word: u32,
    number: u32,
) -> bool
    ensures { result ≡ not_next_in nums.now s kind word number }
{
    let row = s.target;
    if !numbers_instance(kind, word) {
        return false;
    }
    !is_next(nums, row, number)
}

// Whether a semaphore's count follows the one before.
fn count_follows(before: u32, word: u32, count: u32) -> bool
    ensures { result ≡ count_follows_in before word count }
{
    if word == INCREMENT {
        return count as u64 == before as u64 + 1;
    }
    if word == DECREMENT {
        return count as u64 + 1 == before as u64;
    }
    count == before
}

// The least count that an event may bear, where it has one.
fn least_count(word: u32) -> u32
    ensures { result ≡ least_count word }
{
    if word == INCREMENT {
        return 1;
    }
    if word == USED {
        return 1;
    }
    if word == UNLOCK_FULL {
        return 1;
    }
    if word == LOCK_USED {
        return 1;
    }
    if word == FULL {
        return 1;
    }
    if word == OVERFULL { 2 } else { 0 }
}

// Whether a count is one that its event may bear.
fn count_fits(word: u32, count: u32) -> bool
    ensures { result ≡ count_allowed word count }
{
    if word == FREE {
        return count == 0;
    }
    if word == UNLOCK {
        return count == 0;
    }
    if word == LOCK {
        return count == 1;
    }
    least_count(word) <= count
}

// 14: whether a semaphore's count is broken.
pub(crate) fn count_broken(
    nums: &[u32; NUMS_SIZE],
    s: LookedUp,
    kind: u32,
    word: u32,
    count: u32,
) -> bool
    ensures { result ≡ count_broken_in nums.now s kind word count }
{
    let row = s.target;
    if kind != SEMAPHORE {
        return false;
    }
    if !count_fits(word, count) {
        return true;
    }
    if !numbered_in(nums, row) {
        return false;
    }
    !count_follows(number_in(nums, row), word, count)
}
