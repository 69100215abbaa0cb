// The three tables once no test refuses them: they go together, and what writes the sheet needs no other word that they are in range.
ghost use Rattle.std.specs.Prelude.{◌≡◌};
ghost use Rattle.ranges.specs.Range.{table_answer};

use tables::entry::*;

#[derive(Clone, Copy)]
pub(crate) struct Tested<'a> {
    pub(crate) names: &'a [u8; NAMES_SIZE],
    pub(crate) nums: &'a [u32; NUMS_SIZE],
    pub(crate) ticks: &'a [u64; TICKS_SIZE],
    ghost in_range: { table_answer names.now nums.now ticks.now ≡ 0 },
}
