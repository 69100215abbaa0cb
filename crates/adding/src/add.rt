// Two sheets added.
ghost use Rattle.std.specs.Prelude.{◌≡◌, ◌≤◌};
ghost use Rattle.adding.specs.Adding.{told_as, add_into};
ghost use Rattle.adding.specs.AddCode.{refused_by, own_refusal, BothRead, Paired, cores_met, Judged};

use crate::apart::meet;
use crate::refusal::Refusal;
use crate::sections::{CORE_ROWS_MOST, PROCESS_ROWS_MOST, put_section_rows};
use crate::sheet::{CORES_MOST, NAMES_MOST, Sheet, read_sheet};
use crate::whole::Made;
use bill::section::Section;
use text::size::MAX_TIME;

// 24 or 25 of a sum with so many cores and processes and this span.
fn own_refusal(cores: usize, processes: usize, span: u64) -> Result<(), Refusal>
    requires { (cores ≤ 512) × (processes ≤ 512) }
    ensures { refused_by result ≡ own_refusal cores processes span }
{
    if (CORES_MOST < cores) | (NAMES_MOST < cores + processes) {
        return Err(Refusal::TooMany);
    }
    if MAX_TIME < span {
        return Err(Refusal::TooLong);
    }
    Ok(())
}

// The sum of two sheets in one scale, where no name is a core in one and a process in the other.
fn add_rows(x: &Sheet, y: &Sheet, out: &mut [u8]) -> Result<usize, Refusal>
    requires { Paired x.now y.now }
    ensures { told_as result out.new ≡ add_into x.now.text.now y.now.text.now out.old }
{
    let mut core_lines = [0u8; CORE_ROWS_MOST];
    let cores = put_section_rows(Section::Cores, x, y, &mut core_lines);
    let mut process_lines = [0u8; PROCESS_ROWS_MOST];
    let processes = put_section_rows(Section::Processes, x, y, &mut process_lines);
    let span = x.form.span + y.form.span;
    own_refusal(cores.count, processes.count, span)?;
    let made = Made {
        scale: x.form.scale,
        span,
        cores: cores.count,
        core_lines: &core_lines[..cores.next],
        processes: processes.count,
        process_lines: &process_lines[..processes.next],
    };
    made.put_whole(out)
}

// Whether a core of the first sheet is a process of the second.
fn cores_met(x: &Sheet, y: &Sheet) -> bool
    requires { BothRead x.now y.now }
    ensures { result ≡ cores_met x.now y.now }
{
    meet(
        x.text,
        x.places(Section::Cores),
        y.text,
        y.places(Section::Processes),
    )
}

// 22 or 23 of two sheets that may be added.
fn pair_refusal(x: &Sheet, y: &Sheet) -> Result<(), Refusal>
    requires { BothRead x.now y.now }
    ensures { Judged x.now y.now result }
{
    if x.form.scale != y.form.scale {
        return Err(Refusal::Scales);
    }
    if cores_met(x, y) || cores_met(y, x) {
        return Err(Refusal::Names);
    }
    Ok(())
}

// The sum of two sheets that may be added.
fn add_read(x: &Sheet, y: &Sheet, out: &mut [u8]) -> Result<usize, Refusal>
    requires { BothRead x.now y.now }
    ensures { told_as result out.new ≡ add_into x.now.text.now y.now.text.now out.old }
{
    pair_refusal(x, y)?;
    add_rows(x, y, out)
}

// Puts the sum of the two texts at the front of out, and tells how many bytes it takes; the rest of out stays as it is, and all of it where the sum is refused.
pub fn add(a: &[u8], b: &[u8], out: &mut [u8]) -> Result<usize, Refusal>
    ensures { told_as result out.new ≡ add_into a.now b.now out.old }
{
    let x = read_sheet(a).ok_or(Refusal::Malformed)?;
    let y = read_sheet(b).ok_or(Refusal::Malformed)?;
    add_read(&x, &y, out)
}
