// Pairs of sheets from one input, added: for each pair a header with the lengths of the two, and then the bytes of both. What is printed of each is the
// text of the sum, or the line `refused N`; it is held to the second reader's answers.
#![tactic(auto)]

ghost use Rattle.std.specs.Prelude.{◌≤◌, ◌<◌, length, IfSome};
ghost use Rattle.try_sheets.specs.Steps.{Step};

use adding::add::add;
use adding::sheet::SHEET_MOST;
use intake::read_full;
use std::io::Stdout;
use text::bytes::find;
use text::number::read_number;

// A number, and where it goes on behind it.
#[derive(Clone, Copy, Debug, PartialEq, Eq)]
struct Told {
    number: usize,
    next: usize,
}

// The number from the index at on, up to the byte `end`, where there is one.
fn number_at(s: &[u8], end: u8, at: usize) -> Option<Told>
    requires { at ≤ length s.now }
    ensures { IfSome result (λ r. Step r at (length s.now)) }
{
    let stop = find(s, end, at);
    if s.len() <= stop {
        return None;
    }
    let number = read_number(&s[at..stop], 65536)?;
    Some(Told {
        number: number as usize,
        next: stop + 1,
    })
}

// The same; where there is none, 0, and the end of all.
fn number_to(s: &[u8], end: u8, at: usize) -> Told
    requires { at ≤ length s.now }
    ensures { Step result at (length s.now) }
{
    let none = Told {
        number: 0,
        next: s.len(),
    };
    number_at(s, end, at).unwrap_or(none)
}

fn say(stdout: Stdout, s: &[u8]) {
    let _ = stdout.write_all(s);
}

// The first n bytes, where there are as many.
fn say_front(stdout: Stdout, s: &[u8], n: usize) {
    if let Some(front) = s.get(..n) {
        say(stdout, front);
    }
}

fn say_refused(stdout: Stdout, number: u32) {
    say(stdout, b"refused ");
    let _ = stdout.print(number as u64);
    say(stdout, b"\n");
}

// Adds a pair into an output that is a byte shorter than n, and says how that is refused.
fn say_short(stdout: Stdout, a: &[u8], b: &[u8], n: usize) {
    if n == 0 {
        return;
    }
    if SHEET_MOST < n {
        return;
    }
    let mut out = [0u8; SHEET_MOST];
    if let Err(refusal) = add(a, b, &mut out[0..n - 1]) {
        say_refused(stdout, refusal.number());
    }
}

// Adds a pair and says what came of it; a sum is asked for once more, with an output that is a byte too short.
fn say_sum(stdout: Stdout, a: &[u8], b: &[u8]) {
    let mut out = [0u8; SHEET_MOST];
    match add(a, b, &mut out) {
        Ok(n) => {
            say_front(stdout, &out, n);
            say_short(stdout, a, b, n);
        }
        Err(refusal) => say_refused(stdout, refusal.number()),
    }
}

// Says the pair whose header stands at the index `at`, and answers where the next one begins; the end where there is none.
fn say_pair(stdout: Stdout, s: &[u8], at: usize) -> usize
    requires { at < length s.now }
    ensures { (at < result) × (result ≤ length s.now) }
{
    let n = s.len();
    let first = number_to(s, b' ', at);
    let second = number_to(s, b'\n', first.next);
    let from = second.next;
    let middle = from + first.number;
    let end = middle + second.number;
    if n < end {
        return n;
    }
    say_sum(stdout, &s[from..middle], &s[middle..end]);
    end
}

// No `for`: a pair tells where the next one begins.
fn say_pairs(stdout: Stdout, s: &[u8]) {
    let mut at = 0;
    while at < s.len() {
        at = say_pair(stdout, s, at);
    }
}

fn main(rt: HostRuntime) {
    let mut input = [0u8; 65536];
    let n = read_full(&mut rt.stdin(), &mut input);
    say_pairs(rt.stdout(), &input[..n]);
}
