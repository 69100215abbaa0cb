// The lines of a sheet that are no rows: the verdict's, and the titles with their counts.
ghost use Rattle.std.specs.Prelude.{◌≡◌};
ghost use Rattle.paper.specs.Heads.{head_of, count_of};

use bill::scale::scale_number;
use text::bytes::{find, starts};
use text::number::read_number;
use text::size::MAX_TIME;
use words::scale::scale_of;

// The time scale's number and the span that the verdict's line of a sheet tells; nothing where it is no line of an accepted trace.
pub fn read_head(line: &[u8]) -> Option<(u32, u64)>
    ensures { result ≡ head_of line.now }
{
    if !starts(line, b"verdict 0 line 0 scale ") {
        return None;
    }
    let blank = find(line, 32, 23);
    let named = scale_of(&line[23..blank])?;
    if !starts(&line[blank..], b" span ") {
        return None;
    }
    let span = read_number(&line[blank + 6..], MAX_TIME)?;
    Some((scale_number(named), span))
}

// The count of at most max behind the title.
pub fn read_count(line: &[u8], title: &[u8], max: u64) -> Option<u64>
    ensures { result ≡ count_of title.now line.now max }
{
    if !starts(line, title) {
        return None;
    }
    let n = title.len();
    read_number(&line[n..], max)
}
