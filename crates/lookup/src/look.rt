// What is looked up in the tables for an event line: the rows of its core, its target and its instance.
ghost use Rattle.std.specs.Prelude.{◌≡◌};
ghost use Rattle.lookup.specs.Find.{find_name};
ghost use Rattle.lookup.specs.LookedUp.{look_if, instance_in, looked_up_for, rows_added, above_in};

use crate::find::{find_from, find_instance, find_name};
use steps::kind::{core_class, tracked, with_instances};
use steps::numbers::NO_CORE;
use tables::entry::NAME_ROWS;

// What the event does to its core, and the rows of its core, its target and its instance.
#[derive(Clone, Copy, Debug, PartialEq, Eq)]
pub struct LookedUp {
    pub class: u32,
    pub source: Option<usize>,
    pub target: Option<usize>,
    pub instance: Option<usize>,
}

// The row of a name, looked up only where it is needed.
fn look_if(needed: bool, names: &[u8], nums: &[u32], name: &[u8]) -> Option<usize>
    ensures { result ≡ look_if needed (find_name names.now nums.now name.now) }
{
    if needed {
        find_name(names, nums, name)
    } else {
        None
    }
}

// The row of an instance of the name in a row.
fn instance_in(nums: &[u32], needed: bool, target: Option<usize>, number: u32) -> Option<usize>
    ensures { result ≡ instance_in nums.now needed target number }
{
    if !needed {
        return None;
    }
    let i = target?;
    if NAME_ROWS <= i {
        return None;
    }
    find_instance(nums, i as u32, number)
}

// The rows of an event line's core, target and instance.
pub fn look(
    names: &[u8],
    nums: &[u32],
    kind: u32,
    word: u32,
    number: u32,
    source: &[u8],
    target: &[u8],
) -> LookedUp
    ensures { result ≡ looked_up_for names.now nums.now kind word number source.now target.now }
{
    let class = core_class(kind, word);
    let s = look_if(class != NO_CORE, names, nums, source);
    let t = look_if(tracked(kind), names, nums, target);
    let j = instance_in(nums, with_instances(kind), t, number);
    LookedUp {
        class,
        source: s,
        target: t,
        instance: j,
    }
}

// 1 where a row is needed and there is none yet.
pub fn rows_added(needed: bool, f: Option<usize>) -> u64
    ensures { result ≡ rows_added needed f }
{
    if !needed {
        return 0;
    }
    match f {
        Some(_) => 0,
        None => 1,
    }
}

// Whether a number is above those of all instances of the name in a row.
pub fn above_all(nums: &[u32], target: Option<usize>, number: u32) -> bool
    ensures { result ≡ above_in nums.now target number }
{
    let Some(i) = target else {
        return true;
    };
    if NAME_ROWS <= i {
        return true;
    }
    find_from(nums, i as u32, number).is_none()
}
