// The next line of a chunk, from a slice and numbers: where what stands after it begins, and what lies between.
ghost use Rattle.std.specs.Prelude.{◌≡◌, length};
ghost use Rattle.walk.specs.Lines.{line_text, line_between, start_from};

use text::bytes::find;

// Where what stands after the line at the index `at` begins; `at` itself where no byte 10 is left.
pub fn next_start(s: &[u8], at: usize) -> usize
    ensures { result ≡ start_from s.now at }
{
    let n = find(s, 10, at);
    if s.len() <= n {
        return at;
    }
    n + 1
}

// How many of the bytes before a byte 10 are the line's: one byte 13 at their end belongs to the end.
fn text_length(p: &[u8]) -> usize
    ensures { result ≡ length (line_text p.now) }
{
    let n = p.len();
    if n == 0 {
        return 0;
    }
    if p[n - 1] == 13 {
        return n - 1;
    }
    n
}

// Where the line ends that begins at the index `at` and that the byte just before the index `start` ends, and `start`, where what stands after it begins; nothing where no
// such byte stands from `at` on.
pub fn line_between(s: &[u8], at: usize, start: usize) -> Option<(usize, usize)>
    ensures { result ≡ line_between s.now at start }
{
    if start <= at {
        return None;
    }
    if s.len() < start {
        return None;
    }
    let end = start - 1;
    let n = text_length(&s[at..end]);
    Some((at + n, start))
}
