// A fresh start.
ghost use Rattle.std.specs.Prelude.{◌≡◌};
ghost use Rattle.tables.specs.Fresh.{cleared, cleared_of};

use crate::size::sized;

// "A fresh start .. overwrites what the tables held and never gives 16": every entry 0, or 15 and nothing written. It answers with
// the number, as `table_answer` and `feed` do.
pub fn fresh(names: &mut [u8], nums: &mut [u32], ticks: &mut [u64]) -> u32
    ensures { cleared result names.new nums.new ticks.new
        ≡ cleared_of names.old nums.old ticks.old }
{
    if !sized(names.len(), nums.len(), ticks.len()) {
        return 15;
    }
    names.fill(0);
    nums.fill(0);
    ticks.fill(0);
    0
}
