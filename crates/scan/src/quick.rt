// A line of at most 127 bytes that only commas and bytes of names make up, known by the places of its first eight bytes that no name may have.
ghost use Rattle.std.specs.Prelude.{◌≡◌, ◌+◌, ◌<◌, true, false, length};
ghost use Rattle.scan.specs.Ahead.{ahead_of};
ghost use Rattle.scan.specs.Quick.{places_of, InSight, is_comma, are_commas, end_length, ends_after, after_six, told};

use crate::ahead::Ahead;
use crate::window::marks_at;
use fields::part::Commas;
use marks::two::{Marks, first, rest};

// The places of the first eight marks; 128 where there are fewer.
fn places(m: Marks) -> Commas
    ensures { result ≡ places_of m }
{
    let m2 = rest(m);
    let m3 = rest(m2);
    let m4 = rest(m3);
    let m5 = rest(m4);
    let m6 = rest(m5);
    let m7 = rest(m6);
    let m8 = rest(m7);
    Commas {
        c1: first(m),
        c2: first(m2),
        c3: first(m3),
        c4: first(m4),
        c5: first(m5),
        c6: first(m6),
        c7: first(m7),
        c8: first(m8),
    }
}

// Whether a comma stands at a place of the line at an index.
fn comma(s: &[u8], at: usize, place: usize) -> bool
    requires { at + place < length s.now }
    ensures { result ≡ is_comma s.now at place }
{
    s[at + place] == b','
}

// Whether commas stand at the first six places.
fn six_commas(s: &[u8], at: usize, c: Commas) -> bool
    requires { InSight s.now at c }
    ensures { result ≡ are_commas s.now at c }
{
    (comma(s, at, c.c1) & (comma(s, at, c.c2) & comma(s, at, c.c3)))
        & (comma(s, at, c.c4) & (comma(s, at, c.c5) & comma(s, at, c.c6)))
}

// How many bytes the end of a line has that begins at the index p: one, or two with a byte 13; none where no line ends there.
fn end_length(s: &[u8], p: usize) -> usize
    requires { p + 1 < length s.now }
    ensures { result ≡ end_length s.now p }
{
    if s[p] == 10 {
        return 1;
    }
    if s[p] != 13 {
        return 0;
    }
    if s[p + 1] == 10 { 2 } else { 0 }
}

// The line at an index that has these commas, where it ends after n bytes; all of them are plain.
fn ends_after(s: &[u8], at: usize, n: usize, c: Commas) -> Option<Ahead>
    requires { (at + n) + 1 < length s.now }
    ensures { result ≡ ends_after s.now at n c }
{
    let end = at + n;
    let more = end_length(s, end);
    if more == 0 {
        return None;
    }
    Some(Ahead {
        end,
        start: end + more,
        plain: true,
        commas: c,
    })
}

// The line at an index, where the first six marks are commas: the seventh is its end, or a comma before the note that the eighth ends.
fn after_six(s: &[u8], at: usize, c: Commas) -> Option<Ahead>
    requires { InSight s.now at c }
    ensures { result ≡ after_six s.now at c }
{
    if !comma(s, at, c.c7) {
        let n = c.c7;
        let whole = Commas {
            c1: c.c1,
            c2: c.c2,
            c3: c.c3,
            c4: c.c4,
            c5: c.c5,
            c6: c.c6,
            c7: n,
            c8: n + 1,
        };
        return ends_after(s, at, n, whole);
    }
    if 127 < c.c8 {
        return None;
    }
    ends_after(s, at, c.c8, c)
}

// The line at an index, where it ends within 128 bytes and they tell it; else nothing is told.
pub(crate) fn quick(s: &[u8], at: usize) -> Option<Ahead>
    ensures { told result ≡ true → result ≡ ahead_of false s.now at }
{
    if s.len() < 129 {
        return None;
    }
    if s.len() - 129 < at {
        return None;
    }
    let m = Marks {
        low: marks_at(s, at),
        high: marks_at(s, at + 64),
    };
    let c = places(m);
    if 127 < c.c7 {
        return None;
    }
    if !six_commas(s, at, c) {
        return None;
    }
    after_six(s, at, c)
}
