// The sizes of the lent tables: 15 is for a table of another size.
ghost use Rattle.std.specs.Prelude.{◌≡◌};
ghost use Rattle.tables.specs.Sized.{is_sized};

use crate::entry::*;

// Whether the three tables have their sizes.
pub fn sized(names: usize, nums: usize, ticks: usize) -> bool
    ensures { result ≡ is_sized names nums ticks }
{
    if names != NAMES_SIZE {
        return false;
    }
    if nums != NUMS_SIZE {
        return false;
    }
    ticks == TICKS_SIZE
}
