// A name compared with a row of the names: lengths first, then the bytes from the back, and the first difference ends it. This is the one place where
// it is done, whichever way a row is come upon.
ghost use Rattle.std.specs.Prelude.{◌≡◌, true, false, ◌+◌, ◌≤◌, length, drop};
ghost use Rattle.text.specs.Bytes.{same_bytes};
ghost use Rattle.lookup.specs.Find.{row_is};

use tables::entry::*;
use text::bytes::same;

// Whether a row's bytes and a name as long differ in one of the eight from the index `at` on. All eight are looked at with no exit between, so
// that they can be compared at once.
fn eight_differ(row: &[u8], name: &[u8], at: usize) -> bool
    requires { (at + 8 ≤ length row.now) × (length row.now ≡ length name.now) }
    ensures { (result ≡ true → same_bytes row.now name.now ≡ false)
        × (result ≡ false → drop (at + 8) row.now ≡ drop (at + 8) name.now → drop at row.now ≡ drop at name.now) }
{
    let mut differ = false;
    for k in 0..8 {
        differ = differ | (row[at + k] != name[at + k]);
    }
    differ
}

// Whether a row's bytes are a name as long. They are compared from the back, since names of one length often differ in their last bytes only: eight
// at a time, and at the front the first eight, some of which were compared before; fewer than eight one by one.
fn same_name(row: &[u8], name: &[u8]) -> bool
    requires { length row.now ≡ length name.now }
    ensures { result ≡ same_bytes row.now name.now }
{
    if name.len() < 8 {
        return same(row, name);
    }
    let mut i = name.len() - 8;
    // no `for`: the last step, to the front, is shorter than eight where the length is no multiple of it
    loop {
        if eight_differ(row, name, i) {
            return false;
        }
        if i < 8 {
            return !eight_differ(row, name, 0);
        }
        i -= 8;
    }
}

// Whether row i holds the name. No byte of a row of another length is looked at.
pub(crate) fn row_is(
    names: &[u8; NAMES_SIZE],
    nums: &[u32; NUMS_SIZE],
    name: &[u8],
    i: usize,
) -> bool
    ensures { result ≡ row_is names.now nums.now name.now i }
{
    if NAME_ROWS <= i {
        return false;
    }
    let n = name.len();
    if NAME_ROOM < n {
        return false;
    }
    if nums[LENGTH + i] as usize != n {
        return false;
    }
    let at = NAME_ROOM * i;
    let to = at + n;
    same_name(&names[at..to], name)
}
