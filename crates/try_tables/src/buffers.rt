// The buffers whose first entries are lent as tables. They are handed on by value: a function that is lent three slices, to lend them on, takes the
// prover far longer than one that takes and returns a struct.
use crate::say::say_done;
use crate::step::Numbers;
use std::io::Stdout;
use tables::entry::{NAMES_SIZE, NUMS_SIZE, TICKS_SIZE};

// One entry more than a table has, so that one too many can be lent.
pub(crate) const NAMES_ROOM: usize = NAMES_SIZE + 1;

pub(crate) const NUMS_ROOM: usize = NUMS_SIZE + 1;

pub(crate) const TICKS_ROOM: usize = TICKS_SIZE + 1;

// The buffers, and how many entries of each are lent.
#[derive(Clone, Copy)]
pub(crate) struct Buffers {
    pub(crate) names: [u8; NAMES_ROOM],
    pub(crate) nums: [u32; NUMS_ROOM],
    pub(crate) ticks: [u64; TICKS_ROOM],
    pub(crate) names_lent: usize,
    pub(crate) nums_lent: usize,
    pub(crate) ticks_lent: usize,
}

pub(crate) fn zeros() -> Buffers {
    Buffers {
        names: [0u8; NAMES_ROOM],
        nums: [0u32; NUMS_ROOM],
        ticks: [0u64; TICKS_ROOM],
        names_lent: NAMES_SIZE,
        nums_lent: NUMS_SIZE,
        ticks_lent: TICKS_SIZE,
    }
}

// Tells of a size that a buffer has no room for; of that buffer all is lent then.
pub(crate) fn resized(stdout: Stdout, t: Buffers, n: Numbers) -> Buffers {
    let names = n.first <= NAMES_ROOM as u64;
    let nums = n.second <= NUMS_ROOM as u64;
    let ticks = n.third <= TICKS_ROOM as u64;
    say_done(stdout, names & nums & ticks);
    let mut r = t;
    r.names_lent = n.first as usize;
    r.nums_lent = n.second as usize;
    r.ticks_lent = n.third as usize;
    r
}
