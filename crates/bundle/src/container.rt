// A container of traces: for each a header `trace LABEL LENGTH`, byte 10, its bytes, and byte 10. The length is there because a trace
// may hold any bytes and may lack its last line's end.
ghost use Rattle.std.specs.Prelude.{◌≡◌, ◌+◌, ◌<◌, ◌≤◌, length};
ghost use Rattle.bundle.specs.Container.{length_in, entry_from, container_end};

use crate::say::{say, say_trace};
use std::io::Stdout;
use text::bytes::{find, starts};
use text::number::read_number;

// A trace of a container: where its header ends, and its length.
#[derive(Clone, Copy, Debug, PartialEq, Eq, Hash)]
struct Entry {
    end: usize,
    size: usize,
}

// A container that is broken: how many traces stand before, and the index from which no trace can be told.
#[derive(Clone, Copy, Debug, PartialEq, Eq, Hash)]
pub struct Broken {
    pub traces: usize,
    pub at: usize,
}

// The length that a header gives.
fn length_in(header: &[u8]) -> Option<u64>
    ensures { result ≡ length_in header.now }
{
    if !starts(header, b"trace ") {
        return None;
    }
    let blank = find(header, b' ', 6);
    if header.len() <= blank {
        return None;
    }
    read_number(&header[blank + 1..], 4294967295)
}

// The label that stands between a header's two blanks.
fn label_in(header: &[u8]) -> &[u8] {
    let blank = find(header, b' ', 6);
    if header.len() < blank {
        return &header[..0];
    }
    &header[6..blank]
}

// The trace that stands from an index on, where one can be told.
fn entry_from(s: &[u8], at: usize) -> Option<Entry>
    requires { at < length s.now }
    ensures { result ≡ entry_from s.now at }
{
    let end = find(s, b'\n', at);
    if s.len() <= end {
        return None;
    }
    let n = length_in(&s[at..end])?;
    let size = n as usize;
    // two tests, since of `rest.get(size) != Some(&b'\n')` the search proves too little
    let rest = &s[end + 1..];
    if rest.len() <= size {
        return None;
    }
    if rest[size] != b'\n' {
        return None;
    }
    Some(Entry { end, size })
}

// Says a trace whose header stands from an index on, and whose bytes follow the header's end.
fn say_entry(stdout: Stdout, s: &[u8], at: usize, entry: Entry)
    requires { (at ≤ entry.end) × (entry.end + 1 + entry.size < length s.now) }
{
    let start = entry.end + 1;
    let stop = start + entry.size;
    say_trace(stdout, label_in(&s[at..entry.end]), &s[start..stop]);
}

// Says every trace of a container up to its end, and counts them.
fn say_traces(stdout: Stdout, s: &[u8]) -> Result<usize, Broken>
    ensures { result ≡ container_end s.now }
{
    let mut at = 0;
    let mut traces = 0;
    // no `for`: an entry tells where the next one begins
    while at < s.len() {
        let Some(entry) = entry_from(s, at) else {
            return Err(Broken { traces, at });
        };
        say_entry(stdout, s, at, entry);
        at = entry.end + entry.size + 2;
        traces += 1;
    }
    Ok(traces)
}

// Says every trace of a container, and that it is broken where the rest can't be told apart; how it ended.
pub fn say_all(stdout: Stdout, s: &[u8]) -> Result<usize, Broken>
    ensures { result ≡ container_end s.now }
{
    let ended = say_traces(stdout, s);
    if ended.is_err() {
        say(stdout, b"container broken\n");
    }
    ended
}
