// "a reader that holds the lent chunk and its place": it is asked for its line, with what the line's bytes tell. The work is done by `line_at`,
// on the slice and the number; callers use `next_line`, whose parameters are plain.
ghost use Rattle.std.specs.Prelude.{◌≡◌};
ghost use Rattle.scan.specs.Ahead.{ahead_of};

use crate::ahead::{Ahead, line_at};
use walk::reader::{Reader, new};

// The line at the reader's place; where `whole`, what is left is one line as it stands.
pub fn ahead<'a>(r: Reader<'a>, whole: bool) -> Option<Ahead>
    ensures { result ≡ ahead_of whole r.entry.chunk.now r.entry.at }
{
    line_at(r.chunk, r.at, whole)
}

// What a reader finds in a plain slice from an index on.
pub fn next_line(s: &[u8], at: usize, whole: bool) -> Option<Ahead>
    ensures { result ≡ ahead_of whole s.now at }
{
    ahead(new(s, at), whole)
}
