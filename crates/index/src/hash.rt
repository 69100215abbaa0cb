// "Name bytes folded with wrapping add into a u32, reduced to one of 512 index places." Four bytes are folded at a time, as one number that is loaded at once.
ghost use Rattle.std.specs.Prelude.{◌≡◌, ◌+◌, ◌≤◌, length};
ghost use Rattle.index.specs.Hash.{word as word_of, step as step_of, folded, home_of};

use std::num::wrapping_add_u32;

// how many times each sum is taken, as specs/Hash.antt has it
const FACTOR: u64 = 0x7659_91d1;

// What one place has of all hashes: 2^32 by 512.
const SHARE: u32 = 8388608;

// One number more.
fn step(h: u32, w: u32) -> u32
    ensures { result ≡ step_of h w }
{
    (wrapping_add_u32(h, w) as u64 * FACTOR % 4294967296) as u32
}

// The bytes of a name that has fewer than four.
fn short_word(s: &[u8]) -> u32
    requires { length s.now ≤ 3 }
    ensures { result ≡ word_of s.now 0 }
{
    match *s {
        [] => 0,
        [a] => u32::from_le_bytes([a, 0, 0, 0]),
        [a, b] => u32::from_le_bytes([a, b, 0, 0]),
        [a, b, c, ..] => u32::from_le_bytes([a, b, c, 0]),
    }
}

// All bytes of a name: fours, and then the last four.
fn fold(name: &[u8]) -> u32
    ensures { result ≡ folded name.now }
{
    let Some(last) = name.last_chunk::<4>() else {
        return step(0, short_word(name));
    };
    let mut h: u32 = 0;
    for four in name[..name.len() - 1].as_chunks::<4>().0 {
        h = step(h, u32::from_le_bytes(*four));
    }
    step(h, u32::from_le_bytes(*last))
}

// The place where a name is looked for first.
pub fn home_of(name: &[u8]) -> usize
    ensures { result ≡ home_of name.now }
{
    (fold(name) / SHARE) as usize
}
