// The sheets added: the first by itself, then one after the other to the total so far.
ghost use Rattle.std.specs.Prelude.{◌≡◌, ◌≤◌, length, take};
ghost use Rattle.shifts.specs.Sum.{add_texts};
ghost use Rattle.shifts.specs.Many.{alone};
ghost use Rattle.shifts.specs.Sizes.{sheet_most};
ghost use Rattle.ledger.specs.Totals.{read_most, Stepped, Holding, Ended, Answered};

use crate::files::read_argument;
use adding::add::add;
use adding::refusal::Refusal;
use adding::sheet::SHEET_MOST;
use adding::sound::sound;
use std::env::Env;
use std::rt::Files;
use text::put::put_bytes;

// Why a sheet does not come to the total: its refusal, or that it could not be read.
#[derive(Clone, Copy, Debug, PartialEq, Eq, Hash)]
pub enum SheetError {
    Refused(Refusal),
    Unread,
}

// Why there is no sum: a sheet that does not come to it, counted from 1; that there are fewer than two sheets; or that the output is too short. Then
// nothing is written.
#[derive(Clone, Copy, Debug, PartialEq, Eq, Hash)]
pub enum SumError {
    Sheet(usize, SheetError),
    TooFew,
    WrongSize,
}

// One more than any sheet that may be added has: a longer one shows by it.
const READ_MOST: usize = 24009;

// Holds the first sheet where it may be added; how many bytes are held.
fn first_sheet<R: Env + Files>(rt: &R, held: &mut [u8], buf: &mut [u8]) -> Result<usize, SheetError>
    requires { (length held.old ≡ sheet_most) × (length buf.old ≡ read_most) }
    ensures { Stepped result alone held.new }
{
    let n = read_argument(rt, 1, buf).ok_or(SheetError::Unread)?;
    if sound(&buf[0..n]) {
        put_bytes(&buf[0..n], held, 0);
        return Ok(n);
    }
    Err(SheetError::Refused(Refusal::Malformed))
}

// Adds the sheet that argument i names to the total so far, the first n bytes held; how many bytes are held then.
fn one_more<R: Env + Files>(
    rt: &R,
    held: &mut [u8],
    n: usize,
    buf: &mut [u8],
    i: usize,
) -> Result<usize, SheetError>
    requires { (n ≤ length held.old) × (length held.old ≡ sheet_most) × (length buf.old ≡ read_most) }
    ensures { Stepped result (add_texts (take n held.old)) held.new }
{
    let m = read_argument(rt, i, buf).ok_or(SheetError::Unread)?;
    let mut out = [0u8; SHEET_MOST];
    let k = add(&held[0..n], &buf[0..m], &mut out).map_err(SheetError::Refused)?;
    put_bytes(&out[0..k], held, 0);
    Ok(k)
}

// Adds the sheets that the arguments from 2 on name to the first one, the first n bytes held, and puts the sum of all.
fn add_others<R: Env + Files>(
    rt: &R,
    count: usize,
    held: &mut [u8],
    first: usize,
    buf: &mut [u8],
    out: &mut [u8],
) -> Result<usize, SumError>
    requires { Holding 2 first held.old × (3 ≤ count) × (length held.old ≡ sheet_most) × (length buf.old ≡ read_most) × (sheet_most ≤ length out.old) }
    ensures { Ended result count out.old out.new }
{
    let mut n = first;
    for i in 2..count {
        match one_more(rt, held, n, buf, i) {
            Ok(k) => n = k,
            Err(why) => return Err(SumError::Sheet(i, why)),
        }
    }
    put_bytes(&held[0..n], out, 0);
    Ok(n)
}

// Adds all sheets, where there are two or more.
fn add_sheets<R: Env + Files>(
    rt: &R,
    count: usize,
    held: &mut [u8],
    buf: &mut [u8],
    out: &mut [u8],
) -> Result<usize, SumError>
    requires { (3 ≤ count) × (length held.old ≡ sheet_most) × (length buf.old ≡ read_most) × (sheet_most ≤ length out.old) }
    ensures { Ended result count out.old out.new }
{
    match first_sheet(rt, held, buf) {
        Ok(n) => add_others(rt, count, held, n, buf, out),
        Err(why) => Err(SumError::Sheet(1, why)),
    }
}

// The sum of the sheets that a program's arguments name, at the front of the output, and how many bytes it takes; `count` is how many arguments it has,
// its own name among them.
pub fn sum_of_arguments<R: Env + Files>(
    rt: &R,
    count: usize,
    out: &mut [u8],
) -> Result<usize, SumError>
    ensures { Answered result count out.old out.new }
{
    if out.len() < SHEET_MOST {
        return Err(SumError::WrongSize);
    }
    if count < 3 {
        return Err(SumError::TooFew);
    }
    let mut held = [0u8; SHEET_MOST];
    let mut buf = [0u8; READ_MOST];
    add_sheets(rt, count, &mut held, &mut buf, out)
}
