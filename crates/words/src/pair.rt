// The type and event that two fields name.
ghost use Rattle.std.specs.Prelude.{◌≡◌};
ghost use Rattle.words.specs.Pair.{named_by};

use crate::action::Action;
use crate::kind::{Kind, kind_of};
use crate::reading::action_of;

// The type that `kind` names and the event of that type that `action` names.
pub fn named(kind: &[u8], action: &[u8]) -> Option<(Kind, Action)>
    ensures { result ≡ named_by kind.now action.now }
{
    let kind = kind_of(kind)?;
    let action = action_of(kind, action)?;
    Some((kind, action))
}
