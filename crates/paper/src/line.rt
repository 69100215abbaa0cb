// A line of a sheet by the place where it begins, and the words of a line.
ghost use Rattle.std.specs.Prelude.{◌≡◌, length};
ghost use Rattle.text.specs.Number.{number_of};
ghost use Rattle.text.specs.Pieces.{pieces};
ghost use Rattle.bill.specs.Reading.{word_of};
ghost use Rattle.paper.specs.Lines.{line_from, name_at, amount_in};

use text::bytes::find;
use text::number::read_number;

// No figure of a sheet that may be added is larger: 2^62.
const FIGURE_MOST: u64 = 4611686018427387904;

// The line that begins at the index p, without its end; nothing from past the end of the text.
pub fn line_at(text: &[u8], p: usize) -> &[u8]
    ensures { result.now ≡ line_from text.now p }
{
    if text.len() < p {
        return &text[0..0];
    }
    let e = find(text, 10, p);
    &text[p..e]
}

// Word k of a line, counted from 0; nothing where there is none.
pub(crate) fn word(line: &[u8], k: usize) -> &[u8]
    ensures { result.now ≡ word_of line.now k }
{
    let n = line.len();
    let mut at = 0;
    for _ in 0..k {
        let e = find(line, 32, at);
        if n <= e {
            return &line[0..0];
        }
        at = e + 1;
    }
    let e = find(line, 32, at);
    &line[at..e]
}

// How many words a line has. No `for`: the next blank is found, eight bytes at a time. As a count of blanks, which looks at each byte, a row with a
// name of 64 bytes took 1.5 times as long to read.
pub(crate) fn word_count(line: &[u8]) -> usize
    ensures { result ≡ length (pieces 32 line.now) }
{
    let n = line.len();
    let mut at = 0;
    let mut k = 1;
    loop {
        let e = find(line, 32, at);
        if n <= e {
            return k;
        }
        at = e + 1;
        k += 1;
    }
}

// Word k as a figure of at most max.
pub(crate) fn figure(line: &[u8], k: usize, max: u64) -> Option<u64>
    ensures { result ≡ number_of (word_of line.now k) max }
{
    read_number(word(line, k), max)
}

// Word k as a figure; 0 where it is none that a sheet which may be added can have.
pub fn amount(line: &[u8], k: usize) -> u64
    ensures { result ≡ amount_in line.now k }
{
    figure(line, k, FIGURE_MOST).unwrap_or(0)
}

// The name of the row that begins at the index p.
pub fn name_at(text: &[u8], p: u32) -> &[u8]
    ensures { result.now ≡ name_at text.now p }
{
    word(line_at(text, p as usize), 0)
}
