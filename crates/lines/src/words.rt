// The words of a line.
ghost use Rattle.std.specs.Prelude.{◌≡◌, ◌+◌, ◌≤◌, ◌++◌, length};
ghost use Rattle.lines.specs.Words.{field, type_word, type_of, state_word, size_text, yes_no};

use crate::line::Line;
use crate::number;
use objects::state::{CompositeObjectState, ObjectState};
use objects::types::ObjectType;

#[tactic(auto, unfolding(crate::specs::Words::type_word))]
fn put_type(line: &mut Line, t: ObjectType)
    requires { length line.old + 13 ≤ 128 }
    ensures put { line.new ≡ line.old ++ field (type_word t) }
    ensures upper_bound { length line.new ≤ length line.old + 13 }
{
    match t {
        ObjectType::FileMetadata => line.put(b" FileMetadata"),
        ObjectType::FileData => line.put(b" FileData"),
        ObjectType::FileName => line.put(b" FileName"),
    }
}

// The type of an object that is there, or `-`.
#[tactic(auto, unfolding(crate::specs::Words::type_of))]
pub(crate) fn put_type_of(line: &mut Line, state: CompositeObjectState)
    requires { length line.old + 13 ≤ 128 }
    ensures put { line.new ≡ line.old ++ field (type_of state) }
    ensures upper_bound { length line.new ≤ length line.old + 13 }
{
    match state {
        CompositeObjectState::Free => line.put(b" -"),
        CompositeObjectState::Allocated(t, _) => put_type(line, t),
    }
}

#[tactic(auto, unfolding(crate::specs::Words::state_word))]
pub(crate) fn put_state(line: &mut Line, state: ObjectState)
    requires { length line.old + 10 ≤ 128 }
    ensures put { line.new ≡ line.old ++ field (state_word state) }
    ensures upper_bound { length line.new ≤ length line.old + 10 }
{
    match state {
        ObjectState::Free => line.put(b" Free"),
        ObjectState::Allocated => line.put(b" Allocated"),
        ObjectState::Finalized => line.put(b" Finalized"),
        ObjectState::Deleted => line.put(b" Deleted"),
    }
}

// The payload size, or `-` where it is unset.
#[tactic(auto, unfolding(crate::specs::Words::size_text))]
pub(crate) fn put_size(line: &mut Line, size: Option<u32>)
    requires { length line.old + 11 ≤ 128 }
    ensures put { line.new ≡ line.old ++ field (size_text size) }
    ensures upper_bound { length line.new ≤ length line.old + 11 }
{
    match size {
        Some(n) => number::put_field(line, n),
        None => line.put(b" -"),
    }
}

#[tactic(auto, unfolding(crate::specs::Words::yes_no))]
pub(crate) fn put_yes_no(line: &mut Line, yes: bool)
    requires { length line.old + 4 ≤ 128 }
    ensures put { line.new ≡ line.old ++ field (yes_no yes) }
    ensures upper_bound { length line.new ≤ length line.old + 4 }
{
    if yes {
        line.put(b" yes");
    } else {
        line.put(b" no");
    }
}
