// The index of the names, 16: what tells whether it is the one that they give in order. There is no second one to compare it with: each row has to be where it belongs, and as many
// places taken as there are rows.
ghost use Rattle.std.specs.Prelude.{◌≡◌, ◌<◌, ◌≤◌};
ghost use Rattle.tables.specs.Entry.{name_rows, place_rows, name_room, length_at};
ghost use Rattle.index.specs.Index.{home_at};
ghost use Rattle.index.specs.Taken.{taken_places};
ghost use Rattle.ranges.specs.IndexCode.{row_placed};

use index::hash::home_of;
use tables::entry::*;

// Whether row r is where it belongs: in the first place from its home on that holds no row before it.
pub(crate) fn row_placed(index: &[u32; PLACE_ROWS], home: usize, r: usize) -> bool
    requires { (home < place_rows) × (r < name_rows) }
    ensures { result ≡ row_placed index.now home r }
{
    for d in 0..PLACE_ROWS {
        let e = index[(home + d) % PLACE_ROWS] as usize;
        if (e == 0) | (r < e) {
            return e == r + 1;
        }
    }
    false
}

// The home of the name in row i.
pub(crate) fn home_at(names: &[u8; NAMES_SIZE], nums: &[u32; NUMS_SIZE], i: usize) -> usize
    requires { (i < name_rows) × (length_at nums.now i ≤ name_room) }
    ensures { result ≡ home_at names.now nums.now i }
{
    let n = nums[LENGTH + i] as usize;
    let at = NAME_ROOM * i;
    let to = at + n;
    home_of(&names[at..to])
}

// How many places are taken.
pub(crate) fn taken_places(index: &[u32; PLACE_ROWS]) -> usize
    ensures { result ≡ taken_places index.now }
{
    index.iter().filter(|e| **e != 0).count()
}
