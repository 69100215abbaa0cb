// A text read as a sheet that may be added: its form, and the places of its rows in the order of their names.
ghost use Rattle.std.specs.Prelude.{◌≡◌, ◌≤◌, length};
ghost use Rattle.text.specs.Sizes.{name_limit, core_limit};
ghost use Rattle.adding.specs.FormCode.{core_places, process_places, Sized};
ghost use Rattle.adding.specs.SheetCode.{places_of, NamesOnce, RowsRight, ReadAs, Read};

use crate::apart::meet;
use crate::form::{Form, read_form};
use crate::merge::Side;
use crate::places::LINES_MOST;
use crate::rows::sums_right;
use crate::sort::sort;
use bill::section::Section;
use text::size::{CORE_LIMIT, NAME_LIMIT};

// No sheet that may be added is longer: `sound_longest`.
pub const SHEET_MOST: usize = 24008;

// how many cores, and names, a sheet lists at most, as an index counts
pub(crate) const CORES_MOST: usize = CORE_LIMIT as usize;

pub(crate) const NAMES_MOST: usize = NAME_LIMIT as usize;

// The text, its form, and the places in the first entries.
#[derive(Clone, Copy)]
pub(crate) struct Sheet<'a> {
    pub text: &'a [u8],
    pub form: Form,
    pub cores: [u32; CORES_MOST],
    pub processes: [u32; NAMES_MOST],
}

impl Sheet<'_> {
    // The places of a section's rows, in the order of their names.
    pub(crate) fn places(&self, section: Section) -> &[u32]
        requires { (self.now.form.cores ≤ core_limit) × (self.now.form.processes ≤ name_limit) }
        ensures { result.now ≡ places_of section self.now }
    {
        match section {
            Section::Cores => &self.cores[0..self.form.cores],
            Section::Processes => &self.processes[0..self.form.processes],
        }
    }

    // A section with its text and the span.
    pub(crate) fn side(&self, section: Section) -> Side<'_>
        requires { (self.now.form.cores ≤ core_limit) × (self.now.form.processes ≤ name_limit) }
        ensures { (result.text.now ≡ self.now.text.now) × (result.places.now ≡ places_of section self.now) × (result.span ≡ self.now.form.span) }
    {
        Side {
            text: self.text,
            places: self.places(section),
            span: self.form.span,
        }
    }
}

// Puts the rows of both sections in order, and answers whether no name stands twice.
fn names_once(text: &[u8], cs: &[u32], ps: &[u32], cores: &mut [u32], processes: &mut [u32]) -> bool
    requires { (length cs.now ≤ core_limit) × (length ps.now ≤ name_limit) × (length cores.old ≡ core_limit) × (length processes.old ≡ name_limit) }
    ensures { NamesOnce text.now cs.now ps.now cores.new processes.new result }
{
    if !sort(text, cs, cores) {
        return false;
    }
    if !sort(text, ps, processes) {
        return false;
    }
    let k = cs.len();
    let m = ps.len();
    !meet(text, &cores[0..k], text, &processes[0..m])
}

// Whether the rows of both sections are right: their sums, and no name twice.
fn rows_right(
    text: &[u8],
    starts: &[u32],
    form: Form,
    cores: &mut [u32],
    processes: &mut [u32],
) -> bool
    requires { Sized starts.now form × (length cores.old ≡ core_limit) × (length processes.old ≡ name_limit) }
    ensures { RowsRight text.now (core_places starts.now form) (process_places starts.now form) form.span cores.new processes.new result }
{
    let to = 2 + form.cores;
    let next = to + 1;
    let end = next + form.processes;
    let cs = &starts[2..to];
    let ps = &starts[next..end];
    if !sums_right(text, cs, ps, form.span) {
        return false;
    }
    names_once(text, cs, ps, cores, processes)
}

// Reads the text, and stores the places of its rows.
fn read_places(text: &[u8], cores: &mut [u32], processes: &mut [u32]) -> Option<Form>
    requires { (length cores.old ≡ core_limit) × (length processes.old ≡ name_limit) }
    ensures { Read text.now cores.new processes.new result }
{
    if SHEET_MOST < text.len() {
        return None;
    }
    let mut starts = [0u32; LINES_MOST];
    let form = read_form(text, &mut starts)?;
    if !rows_right(text, &starts, form, cores, processes) {
        return None;
    }
    Some(form)
}

// Reads the text; nothing where it may not be added.
pub(crate) fn read_sheet(text: &[u8]) -> Option<Sheet<'_>>
    ensures { ReadAs text.now result }
{
    let mut cores = [0u32; CORES_MOST];
    let mut processes = [0u32; NAMES_MOST];
    let form = read_places(text, &mut cores, &mut processes)?;
    Some(Sheet {
        text,
        form,
        cores,
        processes,
    })
}
