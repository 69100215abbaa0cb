// What is printed.
use judge::feed::Fed;
use outcome::now::Outcome;
use std::io::Stdout;

pub(crate) fn say(stdout: Stdout, s: &[u8]) {
    let _ = stdout.write_all(s);
}

pub(crate) fn say_line(stdout: Stdout, s: &[u8]) {
    say(stdout, s);
    say(stdout, b"\n");
}

// A number after a text that tells what it is.
fn say_named(stdout: Stdout, text: &[u8], n: u64) {
    say(stdout, text);
    let _ = stdout.print(n);
}

pub(crate) fn say_answer(stdout: Stdout, answer: u32) {
    say_named(stdout, b" ", answer as u64);
}

pub(crate) fn say_fed(stdout: Stdout, fed: Fed) {
    say_answer(stdout, fed.answer);
    say_named(stdout, b" used ", fed.used as u64);
}

// The verdict, or 15 or 16 in its place, and how long the sheet is.
pub(crate) fn say_outcome(stdout: Stdout, o: Outcome) {
    let v = o.verdict;
    say_answer(stdout, v.number);
    say_named(stdout, b" line ", v.line as u64);
    say_named(stdout, b" scale ", v.scale as u64);
    say_named(stdout, b" span ", v.span);
    say_named(stdout, b" sheet ", o.length as u64);
}

pub(crate) fn say_change(stdout: Stdout, unchanged: bool) {
    if unchanged {
        say(stdout, b" unchanged");
    } else {
        say(stdout, b" changed");
    }
}

// Tells of a step that there is none such, or that names more entries than there are.
pub(crate) fn say_done(stdout: Stdout, done: bool) {
    if !done {
        say(stdout, b"no such step, or no such entries\n");
    }
}
