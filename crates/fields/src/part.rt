// The parts of a line that commas separate.
ghost use Rattle.std.specs.Prelude.{◌≡◌};
ghost use Rattle.fields.specs.Part.{IsField, IsBetween, commas_of};

use text::bytes::find;

// The places of a line's first eight commas; where there are fewer, places past its end.
#[derive(Clone, Copy, Debug, PartialEq, Eq)]
pub struct Commas {
    pub c1: usize,
    pub c2: usize,
    pub c3: usize,
    pub c4: usize,
    pub c5: usize,
    pub c6: usize,
    pub c7: usize,
    pub c8: usize,
}

// "Asking for a field hands back that very part of the caller's line": `&line[a..b]`, the k-th comma-separated part, counted
// from 1; a missing field is an empty part.
pub fn field(line: &[u8], k: usize) -> &[u8]
    ensures { IsField line.entry k result }
{
    if k == 0 {
        return &line[0..0];
    }
    let mut a = 0;
    for j in 1..k {
        let c = find(line, b',', a);
        if line.len() <= c {
            return &line[0..0];
        }
        a = c + 1;
    }
    let b = find(line, b',', a);
    &line[a..b]
}

// The commas of a line, found in one walk over it.
pub fn split(line: &[u8]) -> Commas
    ensures { result ≡ commas_of line.now }
{
    let c1 = find(line, b',', 0);
    let c2 = find(line, b',', c1 + 1);
    let c3 = find(line, b',', c2 + 1);
    let c4 = find(line, b',', c3 + 1);
    let c5 = find(line, b',', c4 + 1);
    let c6 = find(line, b',', c5 + 1);
    let c7 = find(line, b',', c6 + 1);
    let c8 = find(line, b',', c7 + 1);
    Commas {
        c1,
        c2,
        c3,
        c4,
        c5,
        c6,
        c7,
        c8,
    }
}

// The part of the line after the place a and before the place b. Between a comma and the next it is the field that stands there.
pub fn between(line: &[u8], a: usize, b: usize) -> &[u8]
    ensures { IsBetween line.entry a b result }
{
    let n = line.len();
    if n <= a {
        return &line[0..0];
    }
    let from = a + 1;
    if n < b {
        return &line[from..n];
    }
    if b < from {
        return &line[from..from];
    }
    &line[from..b]
}
