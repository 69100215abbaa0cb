// The refusal 9 of an event line: its names and kinds.
ghost use Rattle.std.specs.Prelude.{◌≡◌};
ghost use Rattle.decide.specs.PlanCode.{kind_clash, source_clash_in, target_clash_in};

use crate::known::kind_in;
use lookup::look::LookedUp;
use steps::kind::tracked;
use steps::numbers::{CORE, NO_CORE};
use tables::entry::*;
use text::bytes::same;

// Whether a name that is tracked as one kind, 0 for none, comes as another.
fn kind_clash(tracked_as: u32, kind: u32) -> bool
    ensures { result ≡ kind_clash tracked_as kind }
{
    if tracked_as == 0 {
        return false;
    }
    tracked_as != kind
}

// 9: whether the source of a core line is tracked as another kind, or is its target too.
pub(crate) fn source_clash(
    nums: &[u32; NUMS_SIZE],
    s: LookedUp,
    source: &[u8],
    target: &[u8],
) -> bool
    ensures { result ≡ source_clash_in nums.now s source.now target.now }
{
    if s.class == NO_CORE {
        return false;
    }
    let row = s.source;
    if kind_clash(kind_in(nums, row), CORE) {
        return true;
    }
    same(source, target)
}

// 9: whether the target is tracked as another kind.
pub(crate) fn target_clash(nums: &[u32; NUMS_SIZE], s: LookedUp, kind: u32) -> bool
    ensures { result ≡ target_clash_in nums.now s kind }
{
    if !tracked(kind) {
        return false;
    }
    let row = s.target;
    kind_clash(kind_in(nums, row), kind)
}
