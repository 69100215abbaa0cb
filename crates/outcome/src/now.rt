// The one question: the verdict if the trace ended now, and the sheet of the lines taken.
ghost use Rattle.std.specs.Prelude.{◌≡◌, ◌≤◌, length};
ghost use Rattle.text.specs.Put.{written};
ghost use Rattle.bill.specs.Text.{sheet_text};
ghost use Rattle.sheet.specs.Sheet.{sheet_in};
ghost use Rattle.judge.specs.Feed.{tables};
ghost use Rattle.outcome.specs.Outcome.{asked, refused_by, outcome_in};

use crate::at_end::verdict_in;
use crate::tested::Tested;
use bill::section::Section;
use bill::verdict::Verdict;
use ranges::range::table_answer;
use tables::entry::*;

// The verdict, and how many bytes of the output the sheet takes. 15 and 16 take the verdict's place, and then nothing was written.
#[derive(Clone, Copy, Debug, PartialEq, Eq)]
pub struct Outcome {
    pub verdict: Verdict,
    pub length: usize,
}

// No sheet is longer: `sheet_fits`.
pub const SHEET_MOST: usize = 65600;

impl<'a> Tested<'a> {
    // How many bytes the sheet takes.
    fn sheet_length(self) -> usize
        ensures { result ≡ length (sheet_text (sheet_in self.entry.names.now self.entry.nums.now self.entry.ticks.now)) }
    {
        let cores = self.section_length(Section::Cores);
        let processes = self.section_length(Section::Processes);
        cores + processes
    }

    // Writes the sheet at the front of the output; the rest of it stays as it is.
    fn put_sheet(self, out: &mut [u8])
        requires { length (sheet_text (sheet_in self.names.now self.nums.now self.ticks.now)) ≤ length out.old }
        ensures { out.new
            ≡ written out.old 0 (sheet_text (sheet_in self.entry.names.now self.entry.nums.now self.entry.ticks.now)) }
    {
        let next = self.put_section(Section::Cores, out, 0);
        self.put_section(Section::Processes, out, next);
    }
}

// What is answered where the tables or the output are refused.
fn refused(n: u32) -> Outcome
    ensures { result ≡ refused_by n }
{
    let verdict = Verdict {
        number: n,
        line: 0,
        scale: 0,
        span: 0,
    };
    Outcome { verdict, length: 0 }
}

impl<'a> Tested<'a> {
    // Verdict and sheet. The length comes first, so that an output that is too short is left as it is.
    fn outcome(self, out: &mut [u8]) -> Outcome
        ensures { asked result out.new
            ≡ outcome_in (tables self.entry.names.now self.entry.nums.now self.entry.ticks.now) out.old }
    {
        let length = self.sheet_length();
        if out.len() < length {
            return refused(15);
        }
        self.put_sheet(out);
        let verdict = verdict_in(self.nums, self.ticks);
        Outcome { verdict, length }
    }
}

// Verdict and sheet, both from these tables, which it does not change.
pub fn outcome_now(names: &[u8], nums: &[u32], ticks: &[u64], out: &mut [u8]) -> Outcome
    ensures { asked result out.new ≡ outcome_in (tables names.now nums.now ticks.now) out.old }
{
    let t = table_answer(names, nums, ticks);
    if t != 0 {
        return refused(t);
    }
    let Some(names) = names.as_array::<NAMES_SIZE>() else {
        unreachable!()
    };
    let Some(nums) = nums.as_array::<NUMS_SIZE>() else {
        unreachable!()
    };
    let Some(ticks) = ticks.as_array::<TICKS_SIZE>() else {
        unreachable!()
    };
    let tables = Tested { names, nums, ticks };
    tables.outcome(out)
}
