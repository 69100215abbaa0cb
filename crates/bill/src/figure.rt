// One figure of a row.
ghost use Rattle.std.specs.Prelude.{◌≡◌, [], ◌∷◌};
ghost use Rattle.text.specs.Put.{put, after};
ghost use Rattle.bill.specs.Text.{figures_text};

use text::put::{digit_count, put_bytes, put_number, room};

// Puts a blank and the figure into out from the index at on, and returns the index after them; where they don't fit, at, and nothing is written.
pub fn put_figure(n: u64, out: &mut [u8], at: usize) -> usize
    ensures { after result out.new ≡ put out.old at (figures_text (n ∷ [])) }
{
    let length = digit_count(n) + 1;
    if !room(out.len(), at, length) {
        return at;
    }
    let next = put_bytes(b" ", out, at);
    put_number(n, out, next)
}
