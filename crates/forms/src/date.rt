// The moment of a creation date, YYYY-MM-DDTHH:MM:SSZ.
#![tactic(auto, using(crate::proofs::Dates::fits_length), unfolding(crate::specs::Date::fits_byte, crate::specs::Date::digit_at, crate::specs::Date::two_at, crate::specs::Date::is_day, crate::specs::Date::is_time, crate::specs::Date::is_moment))]

ghost use Rattle.std.specs.Prelude.{◌≡◌, ◌+◌, ◌<◌, length};
ghost use Rattle.forms.specs.Date.{fits_pattern, fits_byte, digit_at, two_at, is_leap, days_in, is_day, is_time, is_moment};

// Whether s has the pattern's length and at each place its byte, or any digit where the pattern has a 0.
fn fits_pattern(s: &[u8], pattern: &[u8]) -> bool
    ensures { result ≡ fits_pattern s.now pattern.now }
{
    if s.len() != pattern.len() {
        return false;
    }
    s.iter().zip(pattern).all(|(b, p)| fits_byte(*b, *p))
}

// Whether b is the pattern's byte, or a digit where that is a 0.
fn fits_byte(b: u8, pattern: u8) -> bool
    ensures { result ≡ fits_byte b pattern }
{
    if pattern == b'0' {
        b.is_ascii_digit()
    } else {
        b == pattern
    }
}

// The digit at an index, as a number.
fn digit_at(s: &[u8], i: usize) -> usize
    requires { i < length s.now }
    ensures { (result ≡ digit_at s.now i) × (result < 256) }
{
    s[i].saturating_sub(b'0') as usize
}

// The two digits from an index on, as a number.
fn two_at(s: &[u8], i: usize) -> usize
    requires { i + 1 < length s.now }
    ensures { (result ≡ two_at s.now i) × (result < 4096) }
{
    let tens = digit_at(s, i);
    let ones = digit_at(s, i + 1);
    tens * 10 + ones
}

// Whether a year of the Gregorian calendar is a leap year.
fn leap(year: usize) -> bool
    ensures { result ≡ is_leap year }
{
    if year % 400 == 0 {
        return true;
    }
    if year % 100 == 0 {
        return false;
    }
    year % 4 == 0
}

const DAYS: [usize; 13] = [0, 31, 28, 31, 30, 31, 30, 31, 31, 30, 31, 30, 31];

// How many days a month has; none where there is no such month.
fn days_in(year: usize, month: usize) -> usize
    ensures { result ≡ days_in year month }
{
    if 12 < month {
        return 0;
    }
    if month != 2 {
        return DAYS[month];
    }
    if leap(year) { 29 } else { 28 }
}

// Whether the date of a moment is a real one.
fn real_day(s: &[u8]) -> bool
    requires { length s.now ≡ 20 }
    ensures { result ≡ is_day s.now }
{
    let year = two_at(s, 0) * 100 + two_at(s, 2);
    let days = days_in(year, two_at(s, 5));
    let day = two_at(s, 8);
    1 <= day && day <= days
}

// Whether the time of a moment is a real one.
fn real_time(s: &[u8]) -> bool
    requires { length s.now ≡ 20 }
    ensures { result ≡ is_time s.now }
{
    two_at(s, 11) <= 23 && two_at(s, 14) <= 59 && two_at(s, 17) <= 59
}

// Whether s is a moment: YYYY-MM-DDTHH:MM:SSZ with a real Gregorian date and time.
pub fn moment(s: &[u8]) -> bool
    ensures { result ≡ is_moment s.now }
{
    fits_pattern(s, b"0000-00-00T00:00:00Z") && real_day(s) && real_time(s)
}
