// A row of a sheet: whether it is one of its section, and the figure that it adds to the sums.
ghost use Rattle.std.specs.Prelude.{◌≡◌};
ghost use Rattle.paper.specs.Rows.{named_of, core_held, process_charge};

use crate::line::{figure, word, word_count};
use text::name::name;

// Whether a line has so many words, the first of them a name.
fn named(line: &[u8], count: usize) -> bool
    ensures { result ≡ named_of count line.now }
{
    if word_count(line) != count {
        return false;
    }
    name(word(line, 0))
}

// The held ticks of a core's row, where it has a name and three figures that make the span.
pub fn held_in(line: &[u8], span: u64) -> Option<u64>
    ensures { result ≡ core_held span line.now }
{
    if !named(line, 4) {
        return None;
    }
    let held = figure(line, 1, span)?;
    let idle = figure(line, 2, span - held)?;
    let unknown = figure(line, 3, span - held - idle)?;
    if unknown < span - held - idle {
        return None;
    }
    Some(held)
}

// The charge of a process's row, where it has a name and a charge of at most `left`.
pub fn charge_in(line: &[u8], left: u64) -> Option<u64>
    ensures { result ≡ process_charge left line.now }
{
    if !named(line, 2) {
        return None;
    }
    figure(line, 1, left)
}
