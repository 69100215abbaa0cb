// The parts of a step.
use fields::part::between;
use text::bytes::find;
use text::number::read_number;

// The numbers of a step, after its word.
#[derive(Clone, Copy, Debug, PartialEq, Eq)]
pub(crate) struct Numbers {
    pub(crate) first: u64,
    pub(crate) second: u64,
    pub(crate) third: u64,
}

// The part of s before its first blank.
pub(crate) fn first_of(s: &[u8]) -> &[u8] {
    let n = find(s, b' ', 0);
    if n < s.len() {
        return &s[0..n];
    }
    s
}

// The part of s after its first blank, empty where there is none.
pub(crate) fn rest_of(s: &[u8]) -> &[u8] {
    between(s, find(s, b' ', 0), s.len())
}

// The number that s writes, and 1 where it writes none.
fn number_of(s: &[u8]) -> u64 {
    read_number(s, 18446744073709551615).unwrap_or(1)
}

pub(crate) fn numbers_of(step: &[u8]) -> Numbers {
    let one = rest_of(step);
    let two = rest_of(one);
    Numbers {
        first: number_of(first_of(one)),
        second: number_of(first_of(two)),
        third: number_of(rest_of(two)),
    }
}

// Byte 10 for every slash, but not in a remark: a chunk stands in one line of the script.
pub(crate) fn end_lines(s: &mut [u8]) {
    if s.starts_with(b"#") {
        return;
    }
    for b in s.iter_mut() {
        if *b == b'/' {
            *b = b'\n';
        }
    }
}
