// The next line of a chunk with what its bytes tell before it is read.
ghost use Rattle.std.specs.Prelude.{◌≡◌};
ghost use Rattle.scan.specs.Ahead.{line_from, ahead_of};

use crate::quick::quick;
use fields::part::Commas;
use fields::split;
use text::name::all_plain;
use walk::reader::line_from;

// A line that ends just before the index `end`; what stands after its end begins at the index `start`. Whether its bytes are all plain, and its commas.
#[derive(Clone, Copy, Debug, PartialEq, Eq)]
pub struct Ahead {
    pub end: usize,
    pub start: usize,
    pub plain: bool,
    pub commas: Commas,
}

// Where the line at an index ends, and where the next one begins; where `whole`, what is left is one line as it stands.
fn next_at(s: &[u8], at: usize, whole: bool) -> Option<(usize, usize)>
    ensures { result ≡ line_from whole s.now at }
{
    if !whole {
        return line_from(s, at);
    }
    let n = s.len();
    if n < at {
        return None;
    }
    Some((n, n))
}

// That line with what its bytes tell, each looked at by itself.
fn by_bytes(s: &[u8], at: usize, whole: bool) -> Option<Ahead>
    ensures { result ≡ ahead_of whole s.now at }
{
    let (end, start) = next_at(s, at, whole)?;
    let line = &s[at..end];
    Some(Ahead {
        end,
        start,
        plain: all_plain(line),
        commas: split(line),
    })
}

// The same, by 128 bytes looked at together where these tell it.
pub(crate) fn line_at(s: &[u8], at: usize, whole: bool) -> Option<Ahead>
    ensures { result ≡ ahead_of whole s.now at }
{
    if whole {
        return by_bytes(s, at, true);
    }
    let q = quick(s, at);
    if q.is_some() {
        return q;
    }
    by_bytes(s, at, false)
}
