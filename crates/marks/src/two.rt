// 128 answers in two numbers.
ghost use Rattle.std.specs.Prelude.{◌≡◌};
ghost use Rattle.marks.specs.Marks.{lowest_off, first_mark, rest_marks};

// The first 64 answers and the 64 after them.
#[derive(Clone, Copy, Debug, PartialEq, Eq)]
pub struct Marks {
    pub low: u64,
    pub high: u64,
}

// A number without its lowest digit 1.
fn lowest_off(x: u64) -> u64
    ensures { result ≡ lowest_off x }
{
    x & x.wrapping_sub(1)
}

// How many answers stand before the first yes; 128 where there is none.
pub fn first(m: Marks) -> usize
    ensures { result ≡ first_mark m }
{
    if m.low == 0 {
        return 64 + m.high.trailing_zeros() as usize;
    }
    m.low.trailing_zeros() as usize
}

// The answers without the first yes.
pub fn rest(m: Marks) -> Marks
    ensures { result ≡ rest_marks m }
{
    if m.low == 0 {
        return Marks {
            low: 0,
            high: lowest_off(m.high),
        };
    }
    Marks {
        low: lowest_off(m.low),
        high: m.high,
    }
}
