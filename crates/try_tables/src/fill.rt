// Steps that store in a table.
use crate::buffers::Buffers;
use crate::say::say_done;
use crate::step::Numbers;
use crate::word::Word;
use std::io::Stdout;
use text::put::room;

// Stores v in n entries from an entry on; false where there are no such entries.
fn fill<T: Copy>(s: &mut [T], from: usize, n: usize, v: T) -> bool
    requires { T.is_infallible v }
{
    if !room(s.len(), from, n) {
        return false;
    }
    s[from..from + n].fill(v);
    true
}

// Stores what a step says in the buffer that its word names; a value is taken modulo the width of its entry.
pub(crate) fn store(stdout: Stdout, t: Buffers, word: Word, n: Numbers) -> Buffers {
    let mut r = t;
    let from = n.first as usize;
    let many = n.third as usize;
    let done = match word {
        Word::Names => fill(&mut r.names, from, many, (n.second & 0xff) as u8),
        Word::Nums => fill(&mut r.nums, from, many, (n.second & 0xffff_ffff) as u32),
        Word::Ticks => fill(&mut r.ticks, from, many, n.second),
        _ => false,
    };
    say_done(stdout, done);
    r
}
