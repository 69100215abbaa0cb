// Adds the sheets that its arguments name and prints the text of the sum, or the one line `refused N`. What is printed is decided in `ledger`; here
// are only the memory that is lent, the line of a refusal, and the writing, which nobody can prove.
#![tactic(auto)]

ghost use Rattle.std.specs.Prelude.{◌≡◌, ◌≤◌, length};
ghost use Rattle.text.specs.Put.{put, after};
ghost use Rattle.adding.specs.Adding.{number_of};
ghost use Rattle.ledger.specs.Totals.{IsRefusal};
ghost use Rattle.add.specs.Line.{refused_line, line_most, IsAnswer};

use adding::refusal::Refusal;
use adding::sheet::SHEET_MOST;
use ledger::total::{SheetError, SumError, sum_of_arguments};
use std::env::{Env, FillError};
use std::io::{Stderr, Stdout};
use text::put::{put_bytes, put_number};

const LINE_MOST: usize = 32;

fn complain(stderr: Stderr, s: &[u8]) {
    let _ = stderr.write_all(s);
}

// Writes the first n bytes, which are the answer, and nothing else is ever written to standard output.
fn print(stdout: Stdout, stderr: Stderr, s: &[u8], n: usize)
    requires { IsAnswer n s.now }
{
    if stdout.write_all(&s[0..n]).is_err() {
        complain(stderr, b"cannot write standard output\n");
    }
}

// Puts the line of a refusal.
fn put_refused(number: u32, out: &mut [u8]) -> usize
    requires { line_most ≤ length out.old }
    ensures { after result out.new ≡ put out.old 0 (refused_line number) }
{
    let one = put_bytes(b"refused ", out, 0);
    let two = put_number(number as u64, out, one);
    put_bytes(b"\n", out, two)
}

fn print_refused(stdout: Stdout, stderr: Stderr, number: u32)
    requires { IsRefusal number }
{
    let mut line = [0u8; LINE_MOST];
    let n = put_refused(number, &mut line);
    print(stdout, stderr, &line, n);
}

// Which sheet it is about, for the launcher, on standard error.
fn tell(stderr: Stderr, word: &[u8], sheet: usize) {
    complain(stderr, word);
    let _ = stderr.println(sheet);
}

// Tells why a sheet does not come to the sum: the line of its refusal, or that it could not be read.
fn tell_sheet(stdout: Stdout, stderr: Stderr, sheet: usize, why: SheetError)
    requires { (refusal : Refusal) → why ≡ SheetError.Refused refusal → IsRefusal (number_of refusal) }
{
    match why {
        SheetError::Refused(refusal) => {
            print_refused(stdout, stderr, refusal.number());
            tell(stderr, b"sheet ", sheet);
        }
        SheetError::Unread => tell(stderr, b"unread ", sheet),
    }
}

// How many arguments there are, the program's own name among them.
fn arg_count(env: &impl Env) -> usize {
    for i in 0..usize::MAX {
        if let Err(FillError::NotPresent) = env.arg(i, &mut []) {
            return i;
        }
    }
    usize::MAX
}

fn main(rt: HostRuntime) {
    let stdout = rt.stdout();
    let stderr = rt.stderr();
    let mut out = [0u8; SHEET_MOST];
    let sum = sum_of_arguments(&rt, arg_count(&rt), &mut out);
    match sum {
        Ok(n) => print(stdout, stderr, &out, n),
        Err(why) => match why {
            SumError::Sheet(sheet, why) => tell_sheet(stdout, stderr, sheet, why),
            SumError::TooFew => complain(stderr, b"fewer than two sheets\n"),
            // the output that is lent has room for every sum
            SumError::WrongSize => unreachable!(),
        },
    }
}
