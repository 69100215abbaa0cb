// "a reader that holds the lent chunk and its place": a thin struct that steps to the next line. The work is done by the functions of
// `lines`, on the slice and the number; callers use `line_from`, whose parameters are plain.
ghost use Rattle.std.specs.Prelude.{◌≡◌};
ghost use Rattle.walk.specs.Lines.{next_from, start_from};

use crate::lines::{line_between, next_start};

#[derive(Clone, Copy)]
pub struct Reader<'a> {
    pub chunk: &'a [u8],
    pub at: usize,
}

// A reader at an index of a chunk; any index will do.
pub fn new<'a>(chunk: &'a [u8], at: usize) -> Reader<'a>
    ensures { (result.chunk ≡ chunk.entry) × (result.at ≡ at) }
{
    Reader { chunk, at }
}

// The reader at the next line; where no byte 10 is left, at the same place.
pub fn step<'a>(r: Reader<'a>) -> Reader<'a>
    ensures { (result.chunk ≡ r.entry.chunk) × (result.at ≡ start_from r.entry.chunk.now r.entry.at) }
{
    Reader {
        chunk: r.chunk,
        at: next_start(r.chunk, r.at),
    }
}

// Where the line at the reader's place ends, and where the reader steps to; nothing where no byte 10 is left, for what is left is no whole line.
pub fn next<'a>(r: Reader<'a>) -> Option<(usize, usize)>
    ensures { result ≡ next_from r.entry.chunk.now r.entry.at }
{
    let q = step(r);
    line_between(r.chunk, r.at, q.at)
}

// What a reader finds in a plain slice from an index on.
pub fn line_from(s: &[u8], at: usize) -> Option<(usize, usize)>
    ensures { result ≡ next_from s.now at }
{
    next(new(s, at))
}
