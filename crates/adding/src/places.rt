// The places of a sheet's lines.
ghost use Rattle.std.specs.Prelude.{◌≡◌, ◌<◌, length};
ghost use Rattle.adding.specs.PlaceCode.{lines_most, Lined};

use text::bytes::find;
use text::size::NAME_LIMIT;

// how many lines a sheet that may be added has at most, as specs/PlaceCode.antt has it
pub(crate) const LINES_MOST: usize = NAME_LIMIT as usize + 3;

// Stores where each line begins, and answers how many there are; nothing where the last one lacks its end, or there are too many.
pub(crate) fn line_starts(text: &[u8], starts: &mut [u32]) -> Option<usize>
    requires { (length text.now < 4294967296) × (length starts.old ≡ lines_most) }
    ensures { Lined text.now starts.new result }
{
    let mut at = 0;
    let mut n = 0;
    // not a `for` over the entries: behind it the test whether the text is through would stand once more
    while at < text.len() {
        let e = find(text, 10, at);
        if text.len() <= e {
            return None;
        }
        if n == LINES_MOST {
            return None;
        }
        starts[n] = at as u32;
        n += 1;
        at = e + 1;
    }
    Some(n)
}
