// The rows of a section, one after the other: whether their figures add up.
ghost use Rattle.std.specs.Prelude.{◌≡◌, map, ◌≤◌, length};
ghost use Rattle.text.specs.Sizes.{max_time, core_limit};
ghost use Rattle.paper.specs.Lines.{line_from};
ghost use Rattle.adding.specs.RowCode.{all_held, charges_make, sums_right};

use paper::line::line_at;
use paper::row::{charge_in, held_in};

// All held ticks of the cores whose rows begin at these places, where each is a core's with this span.
fn all_held(text: &[u8], places: &[u32], span: u64) -> Option<u64>
    requires { (length places.now ≤ core_limit) × (span ≤ max_time) }
    ensures { result ≡ all_held span (map (line_from text.now) places.now) }
{
    let mut total: u64 = 0;
    for &p in places {
        total += held_in(line_at(text, p as usize), span)?;
    }
    Some(total)
}

// Whether the rows that begin at these places are processes' whose charges make `held`: what is left of it falls with each.
fn charges_make(text: &[u8], places: &[u32], held: u64) -> bool
    ensures { result ≡ charges_make held (map (line_from text.now) places.now) }
{
    let mut left = held;
    for &p in places {
        let Some(charge) = charge_in(line_at(text, p as usize), left) else {
            return false;
        };
        left -= charge;
    }
    left == 0
}

// Whether each row is one of its section, each core's figures make the span, and the charges all held ticks.
pub(crate) fn sums_right(text: &[u8], cores: &[u32], processes: &[u32], span: u64) -> bool
    requires { (length cores.now ≤ core_limit) × (span ≤ max_time) }
    ensures { result ≡ sums_right span (map (line_from text.now) cores.now) (map (line_from text.now) processes.now) }
{
    let Some(total) = all_held(text, cores, span) else {
        return false;
    };
    charges_make(text, processes, total)
}
