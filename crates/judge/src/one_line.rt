// One line against tables of the right sizes: answered in its place, and then counted, stored or remembered as refused. All answer with the number, which is remembered in the table, and told again as
// it stands there.
ghost use Rattle.std.specs.Prelude.{◌≡◌, ◌<◌, slice_set};
ghost use Rattle.fields.specs.Part.{commas_of};
ghost use Rattle.line.specs.Reading.{read_line, split_line};
ghost use Rattle.tables.specs.Entry.{nums_size};
ghost use Rattle.judge.specs.Feed.{tables, after, place_in, remembered, counted, judged_event, judged_reading, judged_line};

use bill::scale::scale_number;
use decide::plan::decide;
use fields::part::Commas;
use line::event::Event;
use line::reading::{Reading, Split};
use rules::place::Place;
use steps::place::answer_in_place;
use store::take::take;
use tables::entry::*;

// What the lines taken say of the next line's place.
fn place_in(nums: &[u32; NUMS_SIZE]) -> Place
    ensures { result ≡ place_in nums.now }
{
    Place {
        lines: nums[LINES],
        scale: nums[SCALE],
        creator: nums[CREATOR] != 0,
        date: nums[DATE] != 0,
        started: nums[STARTED] != 0,
    }
}

// Remembers a refusal with its line.
fn remember(nums: &mut [u32; NUMS_SIZE], n: u32) -> u32
    ensures { (result ≡ n) × (nums.new ≡ remembered nums.old n) }
{
    let line = nums[LINES].wrapping_add(1);
    nums[VERDICT] = n;
    nums[VERDICT_LINE] = line;
    n
}

// One line more.
fn count_line(nums: &mut [u32; NUMS_SIZE]) -> u32
    ensures { (result ≡ 0) × (nums.new ≡ counted nums.old) }
{
    nums[LINES] = nums[LINES].wrapping_add(1);
    0
}

// One line more, which sets an entry of the line level.
fn count_entry(nums: &mut [u32; NUMS_SIZE], at: usize, value: u32) -> u32
    requires { at < nums_size }
    ensures { (result ≡ 0) × (nums.new ≡ counted (slice_set nums.old at value)) }
{
    nums[at] = value;
    count_line(nums)
}

// An event line with its commas: decided from the tables as they are, then stored or remembered as refused.
fn event_in(
    names: &mut [u8; NAMES_SIZE],
    nums: &mut [u32; NUMS_SIZE],
    ticks: &mut [u64; TICKS_SIZE],
    l: &[u8],
    c: Commas,
    e: Event,
    count: u32,
) -> u32
    requires { (c ≡ commas_of l.now) × (read_line l.now ≡ Reading.EventLine e count) }
    ensures { after result names.new nums.new ticks.new
        ≡ judged_event (tables names.old nums.old ticks.old) l.now e count }
{
    let c2 = c.c2;
    let c5 = c.c5;
    let after_first = c.c1 + 1;
    let after_fourth = c.c4 + 1;
    let source = &l[after_first..c2];
    let target = &l[after_fourth..c5];
    let plan = decide(names, nums, ticks, e, count, source, target);
    match plan {
        Err(refusal) => remember(nums, refusal.number()),
        Ok((s, state)) => {
            take(names, nums, ticks, s, state, e, count, source, target);
            0
        }
    }
}

// A line that none of 1 to 7 refuses, with its commas and its reading.
fn read_in(
    names: &mut [u8; NAMES_SIZE],
    nums: &mut [u32; NUMS_SIZE],
    ticks: &mut [u64; TICKS_SIZE],
    l: &[u8],
    c: Commas,
    r: Reading,
) -> u32
    requires { (c ≡ commas_of l.now) × (read_line l.now ≡ r) }
    ensures { after result names.new nums.new ticks.new
        ≡ judged_reading r (tables names.old nums.old ticks.old) l.now }
{
    match r {
        Reading::Version => count_line(nums),
        Reading::Comment => count_line(nums),
        Reading::TimeScale(scale) => count_entry(nums, SCALE, scale_number(scale)),
        Reading::Creator => count_entry(nums, CREATOR, 1),
        Reading::CreationDate => count_entry(nums, DATE, 1),
        Reading::EventLine(e, count) => event_in(names, nums, ticks, l, c, e, count),
        Reading::Refused(_) => 0,
    }
}

// A line that was read, against tables of the right sizes.
pub(crate) fn line_in(
    names: &mut [u8; NAMES_SIZE],
    nums: &mut [u32; NUMS_SIZE],
    ticks: &mut [u64; TICKS_SIZE],
    l: &[u8],
    s: Split,
) -> u32
    requires { s ≡ split_line l.now }
    ensures { after result names.new nums.new ticks.new
        ≡ judged_line (tables names.old nums.old ticks.old) l.now }
{
    let v = nums[VERDICT];
    if v != 0 {
        return v;
    }
    let c = s.commas;
    let r = s.reading;
    let n = answer_in_place(place_in(nums), r);
    if n != 0 {
        return remember(nums, n);
    }
    read_in(names, nums, ticks, l, c, r)
}
