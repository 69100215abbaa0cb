// Reads a trace from standard input and prints its verdict and, where it is accepted, its sheet. What is printed is decided in `input`; here
// are only the memory that is lent and the writing, which nobody can prove.
#![tactic(auto)]

ghost use Rattle.input.specs.Whole.{IsText};

use input::reads::{BUFFER_SIZE, ReadError};
use input::whole::text_of_input;
use run::report::TEXT_MOST;
use std::io::{Stderr, Stdout};
use tables::entry::{NAMES_SIZE, NUMS_SIZE, TICKS_SIZE};

fn complain(stderr: Stderr, s: &[u8]) {
    let _ = stderr.write_all(s);
}

// Writes the first n bytes, which are the text of the trace that was read, and nothing else is ever written to standard output.
fn print(stdout: Stdout, stderr: Stderr, s: &[u8], n: usize)
    requires { IsText n s.now }
{
    if stdout.write_all(&s[0..n]).is_err() {
        complain(stderr, b"pickaxle: cannot write standard output\n");
    }
}

fn main(rt: HostRuntime) {
    let mut names = [0u8; NAMES_SIZE];
    let mut nums = [0u32; NUMS_SIZE];
    let mut ticks = [0u64; TICKS_SIZE];
    let mut buf = [0u8; BUFFER_SIZE];
    let mut out = [0u8; TEXT_MOST];
    let mut stdin = rt.stdin();
    let stderr = rt.stderr();
    let text = text_of_input(
        &mut stdin, &mut names, &mut nums, &mut ticks, &mut buf, &mut out,
    );
    match text {
        Ok(text) => print(rt.stdout(), stderr, &out, text.length),
        Err(why) => match why {
            ReadError::Failed => complain(stderr, b"pickaxle: cannot read standard input\n"),
            // what is lent has the right sizes
            ReadError::WrongSize => unreachable!(),
            ReadError::OutOfRange => unreachable!(),
        },
    }
}
