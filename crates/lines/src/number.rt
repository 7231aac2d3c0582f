// A number in decimal.
ghost use Rattle.std.specs.Prelude.{◌≡◌, ◌+◌, ◌≤◌, ◌++◌, length};
ghost use Rattle.lines.specs.Digits.{digits};
ghost use Rattle.lines.specs.Words.{field};

use crate::line::Line;

// The digits of n, most significant first.
pub(crate) fn put_number(line: &mut Line, n: u32)
    requires { length line.old + length (digits n) ≤ 128 }
    ensures { line.new ≡ line.old ++ digits n }
{
    if n < 10 {
        line.push((48 + n) as u8);
        return;
    }
    put_number(line, n / 10);
    line.push((48 + n % 10) as u8);
}

// A space and the number.
pub(crate) fn put_field(line: &mut Line, n: u32)
    requires { length line.old + 11 ≤ 128 }
    ensures put { line.new ≡ line.old ++ field (digits n) }
    ensures upper_bound { length line.new ≤ length line.old + 11 }
{
    line.push(32);
    put_number(line, n);
}
