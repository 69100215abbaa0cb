// Looking a name or an instance up.
ghost use Rattle.std.specs.Prelude.{◌≡◌, ◌&&◌, cond, ◌+◌, ◌-◌, ◌%◌, ◌≤◌, ◌<◌, min, eqb};
ghost use Rattle.std.specs.Int.Count.{count_leading_zeros};
ghost use Rattle.marks.specs.Marks.{marks_from};
ghost use Rattle.tables.specs.Entry.{instance_rows, place_rows};
ghost use Rattle.index.specs.Index.{sought};
ghost use Rattle.lookup.specs.Find.{ends_at, row_met, instance_is, reaches_in, find_name, find_instance, find_from, last_below};

use crate::row::row_is;
use index::hash::home_of;
use tables::entry::*;

// The row of a name, by the index: from its home on up to a free place, or all around. A loop of its own, as in
// `ranges` and `store`: each goes round the index to something else, by a law of its own.
fn seek(
    names: &[u8; NAMES_SIZE],
    nums: &[u32; NUMS_SIZE],
    index: &[u32; PLACE_ROWS],
    name: &[u8],
    home: usize,
) -> Option<usize>
    requires { home < place_rows }
    ensures { result ≡ row_met index.now home (sought index.now home (ends_at names.now nums.now name.now)) }
{
    for d in 0..PLACE_ROWS {
        let e = index[(home + d) % PLACE_ROWS] as usize;
        if e == 0 {
            return None;
        }
        if row_is(names, nums, name, e - 1) {
            return Some(e - 1);
        }
    }
    None
}

// The row that holds the name, by the index.
pub fn find_name(names: &[u8], nums: &[u32], name: &[u8]) -> Option<usize>
    ensures { result ≡ find_name names.now nums.now name.now }
{
    let Some(names) = names.as_array::<NAMES_SIZE>() else {
        return None;
    };
    let Some(nums) = nums.as_array::<NUMS_SIZE>() else {
        return None;
    };
    let Some(index) = nums.last_chunk::<PLACE_ROWS>() else {
        unreachable!()
    };
    seek(names, nums, index, name, home_of(name))
}

// What a row with number a and owner b adds: its weight where it is the instance sought, and nothing where it is another.
fn weight(a: u32, b: u32, number: u32, owner: u32, w: u32) -> u32
    ensures { result ≡ cond (eqb a number && eqb b owner) w 0 }
{
    if (a == number) & (b == owner) { w } else { 0 }
}

// Which of the sixteen rows from `at` on are the instance of an owner with a number, as marks in one number. All sixteen are looked at with no
// exit between, so that they can be compared at once.
fn sixteen(nums: &[u32; NUMS_SIZE], owner: u32, number: u32, at: usize) -> u32
    requires { at + 16 ≤ instance_rows }
    ensures { result ≡ marks_from (instance_is nums.now owner number) at 16 }
{
    let mut m: u32 = 0;
    let mut w: u32 = 1;
    for k in 0..16 {
        let j = at + k;
        m = m + weight(nums[INSTANCE + j], nums[OWNER + j], number, owner, w);
        w = w + w;
    }
    m
}

// The row of the highest mark, where the lowest is for row `at`.
fn last_of(at: usize, m: u32) -> Option<usize>
    requires { (at ≤ instance_rows) × (0 < m) }
    ensures { result ≡ Some (at + (31 - count_leading_zeros 32 m)) }
{
    Some(at + (31 - u32::leading_zeros(m)) as usize)
}

// The last row of an instance below `to`, a multiple of sixteen.
fn find_below(nums: &[u32; NUMS_SIZE], owner: u32, number: u32, to: usize) -> Option<usize>
    requires { (to ≤ instance_rows) × (to % 16 ≡ 0) }
    ensures { result ≡ last_below (instance_is nums.now owner number) to }
{
    for k in (0..to / 16).rev() {
        let at = 16 * k;
        let m = sixteen(nums, owner, number, at);
        if m != 0 {
            return last_of(at, m);
        }
    }
    None
}

// How many rows to look at: no more than there are, whatever number the tables hold.
fn rows(n: usize) -> usize
    ensures { result ≡ min n instance_rows }
{
    if INSTANCE_ROWS < n { INSTANCE_ROWS } else { n }
}

// The last row of an instance: the newest are looked at first. Of the sixteen that the newest is among, those after it don't count, and their
// marks are dropped.
pub fn find_instance(nums: &[u32], owner: u32, number: u32) -> Option<usize>
    ensures { result ≡ find_instance nums.now owner number }
{
    let Some(nums) = nums.as_array::<NUMS_SIZE>() else {
        return None;
    };
    let n = rows(nums[INSTANCES] as usize);
    if n == 0 {
        return None;
    }
    let at = (n - 1) / 16 * 16;
    let m = sixteen(nums, owner, number, at) % (1u32 << (n - at));
    if m != 0 {
        return last_of(at, m);
    }
    find_below(nums, owner, number, at)
}

// Whether row j is an instance of an owner with a number or a higher one.
fn reaches(nums: &[u32; NUMS_SIZE], owner: u32, number: u32, j: usize) -> bool
    ensures { result ≡ reaches_in nums.now owner number j }
{
    if INSTANCE_ROWS <= j {
        return false;
    }
    if nums[INSTANCE + j] < number {
        return false;
    }
    nums[OWNER + j] == owner
}

// The last row of an owner's instance with a number or a higher one.
pub(crate) fn find_from(nums: &[u32], owner: u32, number: u32) -> Option<usize>
    ensures { result ≡ find_from nums.now owner number }
{
    let Some(nums) = nums.as_array::<NUMS_SIZE>() else {
        return None;
    };
    for j in (0..nums[INSTANCES] as usize).rev() {
        if reaches(nums, owner, number, j) {
            return Some(j);
        }
    }
    None
}
