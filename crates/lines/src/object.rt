// The line of an object.
ghost use Rattle.std.specs.Prelude.{◌≡◌, ◌+◌, ◌≤◌, ◌++◌, length};
ghost use Rattle.lines.specs.Lines.{header_text, place_text, object_line};

use crate::line::Line;
use crate::{number, words};
use objects::header::ObjectHeader;

// Type, state and payload size, of a size field of s bytes.
pub(crate) fn put_header(line: &mut Line, s: u8, h: ObjectHeader)
    requires { length line.old + 34 ≤ 128 }
    ensures put { line.new ≡ line.old ++ header_text s h }
    ensures upper_bound { length line.new ≤ length line.old + 34 }
{
    words::put_type_of(line, h.state);
    words::put_state(line, h.state.state());
    words::put_size(line, h.payload_size(s))
}

// Block and offset.
fn put_place(line: &mut Line, h: ObjectHeader)
    requires { length line.old + 22 ≤ 128 }
    ensures put { line.new ≡ line.old ++ place_text h }
    ensures upper_bound { length line.new ≤ length line.old + 22 }
{
    number::put_field(line, h.location.block);
    number::put_field(line, h.location.offset)
}

// "object", block, offset, type, state, payload size or `-`.
#[tactic(auto, unfolding(crate::specs::Lines::object_line))]
pub fn object_line(s: u8, h: ObjectHeader) -> Line
    ensures value { result ≡ object_line s h }
    ensures fits { length result ≤ 128 }
{
    let mut line = Line::new();
    line.put(b"object");
    put_place(&mut line, h);
    put_header(&mut line, s, h);
    line.put(b"\n");
    line
}
