// The rows of the sum of two sections, put in order into a lent output.
ghost use Rattle.std.specs.Prelude.{◌≡◌, map, length, drop};
ghost use Rattle.text.specs.Put.{put, after};
ghost use Rattle.bill.specs.Text.{row_text, rows_text};
ghost use Rattle.shifts.specs.Merge.{next_of, next_row};
ghost use Rattle.paper.specs.Lines.{name_at};
ghost use Rattle.adding.specs.MergeCode.{none_for, shown, rows_at, sum_rows, Merging, Next};

use crate::put::{figures_at, none_for, put_row, sum_of};
use bill::section::Section;
use paper::line::name_at;
use sorting::order::compare;
use std::cmp::Ordering;

// How many rows there are, and where the output goes on behind them.
#[derive(Clone, Copy, Debug, PartialEq, Eq)]
pub(crate) struct Merged {
    pub count: usize,
    pub next: usize,
}

// A section of one sheet: its text, the places of the rows in the order of their names, and the sheet's span.
#[derive(Clone, Copy, Debug, PartialEq, Eq)]
pub(crate) struct Side<'a> {
    pub text: &'a [u8],
    pub places: &'a [u32],
    pub span: u64,
}

// Whose name comes next, from row i of the first section and row j of the second on; one that has no row left comes no more.
fn next_of(left: &Side, i: usize, right: &Side, j: usize) -> Ordering
    ensures { result ≡ next_of (drop i (map (name_at left.now.text.now) left.now.places.now)) (drop j (map (name_at right.now.text.now) right.now.places.now)) }
{
    if left.places.len() <= i {
        return Ordering::Greater;
    }
    if right.places.len() <= j {
        return Ordering::Less;
    }
    compare(
        name_at(left.text, left.places[i]),
        name_at(right.text, right.places[j]),
    )
}

// Puts the row of the sum that comes next.
fn put_next(
    section: Section,
    left: &Side,
    i: usize,
    right: &Side,
    j: usize,
    o: Ordering,
    out: &mut [u8],
    at: usize,
) -> usize
    requires { Next section left.now.text.now left.now.places.now left.now.span right.now.text.now right.now.places.now right.now.span i j o (length out.old) at }
    ensures { after result out.new ≡ put out.old at
        (row_text (next_row o (shown section (none_for left.now.span)) (shown section (none_for right.now.span)) (drop i (rows_at left.now.text.now left.now.places.now)) (drop j (rows_at right.now.text.now right.now.places.now)))) }
{
    let s = left.text;
    let t = right.text;
    match o {
        Ordering::Less => {
            let p = left.places[i];
            let f = sum_of(figures_at(s, p), none_for(right.span));
            put_row(section, name_at(s, p), f, out, at)
        }
        Ordering::Equal => {
            let p = left.places[i];
            let f = sum_of(figures_at(s, p), figures_at(t, right.places[j]));
            put_row(section, name_at(s, p), f, out, at)
        }
        Ordering::Greater => {
            let q = right.places[j];
            let f = sum_of(none_for(left.span), figures_at(t, q));
            put_row(section, name_at(t, q), f, out, at)
        }
    }
}

// Puts the rows of the sum of two sections at the front of out.
pub(crate) fn put_sums(section: Section, left: &Side, right: &Side, out: &mut [u8]) -> Merged
    requires { Merging section left.now.text.now left.now.places.now left.now.span right.now.text.now right.now.places.now right.now.span (length out.old) }
    ensures { (result.count ≡ length (sum_rows section (rows_at left.now.text.now left.now.places.now) left.now.span (rows_at right.now.text.now right.now.places.now) right.now.span))
        × (after result.next out.new ≡ put out.old 0
        (rows_text (sum_rows section (rows_at left.now.text.now left.now.places.now) left.now.span (rows_at right.now.text.now right.now.places.now) right.now.span))) }
{
    let mut i = 0;
    let mut j = 0;
    let mut count = 0;
    let mut at = 0;
    // not a `for`: how many turns there are is known once the names are compared, since a turn goes on in one section or in both
    while i + j < left.places.len() + right.places.len() {
        let o = next_of(left, i, right, j);
        at = put_next(section, left, i, right, j, o, out, at);
        count += 1;
        i += usize::from(o.is_le());
        j += usize::from(o.is_ge());
    }
    Merged { count, next: at }
}
