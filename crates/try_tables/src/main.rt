// Runs a script on lent tables, so that tables of a wrong size, entries out of their range and an output that is too short are tried in every
// function that is lent them. A step that calls one prints its answer, and whether any entry of the three tables is another than before. The steps:
//
//   # REMARK        printed as it stands
//   fresh           a fresh start
//   feed LINE       one line
//   chunk TEXT      the whole lines of a chunk
//   ask N           the verdict if the trace ended now, and the length of the sheet, which goes to the first N bytes of an output, or to all where
//                   there are fewer; tells of any other byte of the output that changed
//   sheet N         the same, and then the sheet itself
//   trace N TEXT    the same as ask, of a whole trace
//   sizes A B C     from now on the first A, B and C entries of names, nums and ticks are lent, or all where there are fewer
//   names I V N     stores V in N entries of names from entry I on; likewise nums and ticks
//
// A slash stands for byte 10, but not in a remark; a number that is missing is 1.
#![tactic(auto)]

mod buffers;
mod call;
mod compare;
mod fill;
mod output;
mod say;
mod step;
mod word;

use crate::buffers::{Buffers, resized, zeros};
use crate::call::run_call;
use crate::fill::store;
use crate::say::{say_done, say_line};
use crate::step::{end_lines, first_of, numbers_of};
use crate::word::Word;
use intake::read_full;
use std::io::Stdout;

// Runs a step, and returns the buffers after it.
fn run_step(stdout: Stdout, t: Buffers, step: &[u8]) -> Buffers {
    let Ok(word) = Word::try_from(first_of(step)) else {
        say_done(stdout, false);
        return t;
    };
    match word {
        Word::Remark => {
            say_line(stdout, step);
            t
        }
        Word::Sizes => resized(stdout, t, numbers_of(step)),
        Word::Call(call) => run_call(stdout, t, call, step),
        Word::Names | Word::Nums | Word::Ticks => store(stdout, t, word, numbers_of(step)),
    }
}

// Runs the step that each line of a script holds, on buffers that begin as zeros. The last line may lack its end. A step is run at one place, since
// the buffers are moved there and back.
fn run_script(stdout: Stdout, s: &mut [u8]) {
    let mut t = zeros();
    for piece in s.split_inclusive_mut(|b| *b == b'\n') {
        let line = match piece {
            [line @ .., b'\n'] => line,
            line => line,
        };
        end_lines(line);
        t = run_step(stdout, t, line);
    }
}

fn main(rt: HostRuntime) {
    let mut input = [0u8; 65536];
    let n = read_full(&mut rt.stdin(), &mut input);
    run_script(rt.stdout(), &mut input[0..n]);
}
