// Which of 64 bytes are none of a name's, as one number.
ghost use Rattle.std.specs.Prelude.{◌≡◌, ◌+◌, ◌%◌, ◌≤◌, length, if◌then◌else◌};
ghost use Rattle.text.specs.Name.{is_name_byte};
ghost use Rattle.marks.specs.Marks.{marks_from};
ghost use Rattle.scan.specs.Window.{is_mark, eight_from, joined_of};

use text::name::name_byte;

// What a byte adds where w is the weight of its place: nothing where a name may have it.
fn weight(b: u8, w: u8) -> u8
    ensures { result ≡ (if is_name_byte b then 0 else w) }
{
    if name_byte(b) { 0 } else { w }
}

// The sum of eight weights. They are added as bytes, so that all eight can be added at once. (A loop over the eight compiles to the same; its proof would need an invariant.)
fn eight(l: &[u8], i: usize) -> u8
    requires { i + 8 ≤ length l.now }
    ensures { result ≡ eight_from l.now i % 256 }
{
    l[i].wrapping_add(l[i + 1])
        .wrapping_add(l[i + 2])
        .wrapping_add(l[i + 3])
        .wrapping_add(l[i + 4])
        .wrapping_add(l[i + 5])
        .wrapping_add(l[i + 6])
        .wrapping_add(l[i + 7])
}

// The sums of all 64 weights, eight after eight, each as one byte of the number.
fn joined(l: &[u8]) -> u64
    requires { length l.now ≡ 64 }
    ensures { result ≡ joined_of l.now }
{
    u64::from_le_bytes([
        eight(l, 0),
        eight(l, 8),
        eight(l, 16),
        eight(l, 24),
        eight(l, 32),
        eight(l, 40),
        eight(l, 48),
        eight(l, 56),
    ])
}

// A mark for each of the 64 bytes from the index `at` on that no name may have.
pub(crate) fn marks_at(s: &[u8], at: usize) -> u64
    requires { at + 64 ≤ length s.now }
    ensures { result ≡ marks_from (is_mark s.now) at 64 }
{
    // a literal, for a constant table would be copied at each turn
    let weights =
        b"\x01\x02\x04\x08\x10\x20\x40\x80\x01\x02\x04\x08\x10\x20\x40\x80\x01\x02\x04\x08\x10\x20\x40\x80\x01\x02\x04\x08\x10\x20\x40\x80\x01\x02\x04\x08\x10\x20\x40\x80\x01\x02\x04\x08\x10\x20\x40\x80\x01\x02\x04\x08\x10\x20\x40\x80\x01\x02\x04\x08\x10\x20\x40\x80";
    let mut l: [u8; 64] = [0; 64];
    for k in 0..64 {
        l[k] = weight(s[at + k], weights[k]);
    }
    joined(&l)
}
