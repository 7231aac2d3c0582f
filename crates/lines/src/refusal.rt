// The line of a refusal.
ghost use Rattle.std.specs.Prelude.{◌≡◌, ◌+◌, ◌≤◌, ◌++◌, length};
ghost use Rattle.lines.specs.Lines.{refusal_text, refusal_line};

use crate::line::Line;
use crate::number;

// "refused" and 01's number, as a field of a line.
pub(crate) fn put_refusal(line: &mut Line, k: u8)
    requires { length line.old + 19 ≤ 128 }
    ensures put { line.new ≡ line.old ++ refusal_text k }
    ensures upper_bound { length line.new ≤ length line.old + 19 }
{
    line.put(b" refused");
    number::put_field(line, k as u32)
}

// "refused" and 01's number, as a line of its own.
#[tactic(auto, unfolding(crate::specs::Lines::refusal_line))]
pub fn refusal_line(k: u8) -> Line
    ensures value { result ≡ refusal_line k }
    ensures fits { length result ≤ 128 }
{
    let mut line = Line::new();
    line.put(b"refused");
    number::put_field(&mut line, k as u32);
    line.put(b"\n");
    line
}
