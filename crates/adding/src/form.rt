// The form of a sheet, by its lines that are no rows.
ghost use Rattle.std.specs.Prelude.{◌≡◌, ◌<◌, length};
ghost use Rattle.adding.specs.PlaceCode.{lines_most};
ghost use Rattle.adding.specs.FormCode.{Begun, FormedAs};

use crate::places::line_starts;
use paper::head::{read_count, read_head};
use paper::line::line_at;
use text::size::{CORE_LIMIT, NAME_LIMIT};

// how many cores, and names, a sheet lists at most, as a figure counts
const CORES: u64 = CORE_LIMIT as u64;

const NAMES: u64 = NAME_LIMIT as u64;

// Scale, span, and how many cores and processes there are.
#[derive(Clone, Copy, Debug, PartialEq, Eq)]
pub(crate) struct Form {
    pub scale: u32,
    pub span: u64,
    pub cores: usize,
    pub processes: usize,
}

// The form, where the counts of both sections are told and no line is left over.
fn read_counts(text: &[u8], starts: &[u32], n: usize, scale: u32, span: u64) -> Option<Form>
    requires { Begun text.now starts.now n scale span }
    ensures { FormedAs text.now starts.now result }
{
    let first = read_count(line_at(text, starts[1] as usize), b"cores ", CORES)?;
    let cores = first as usize;
    if n < 3 + cores {
        return None;
    }
    let title = line_at(text, starts[2 + cores] as usize);
    let second = read_count(title, b"processes ", NAMES - first)?;
    let processes = second as usize;
    if n != 3 + cores + processes {
        return None;
    }
    Some(Form {
        scale,
        span,
        cores,
        processes,
    })
}

// The form of a sheet by its lines; nothing where it may not be added.
pub(crate) fn read_form(text: &[u8], starts: &mut [u32]) -> Option<Form>
    requires { (length text.now < 4294967296) × (length starts.old ≡ lines_most) }
    ensures { FormedAs text.now starts.new result }
{
    let n = line_starts(text, starts)?;
    if n < 3 {
        return None;
    }
    let (scale, span) = read_head(line_at(text, starts[0] as usize))?;
    read_counts(text, starts, n, scale, span)
}
