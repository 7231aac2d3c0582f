// The line of a moment of a move: what was answered under a fuse, what the original and the copy then read as, and whether they agree.
ghost use Rattle.std.specs.Prelude.{◌≡◌, ◌+◌, ◌≤◌, ◌++◌, length};
ghost use Rattle.lines.specs.declared.moment.Twin.TheVariants.{At};
ghost use Rattle.lines.specs.Lines.{reading_text, call_text, pair_text, agree_text, moment_line, twin_span, twin_line};

use crate::line::Line;
use crate::refusal::put_refusal;
use crate::{number, object, words};
use objects::header::ObjectHeader;

// What stands at a place: an object, nothing, or bytes that are no header.
pub type Seen = Result<Option<ObjectHeader>, u8>;

// At which fuses there are two whole objects.
#[derive(Clone, Copy, Debug, PartialEq, Eq)]
pub enum Twin {
    Never,
    At(u32),
    From(u32, u32),
}

#[tactic(auto, unfolding(crate::specs::Lines::reading_text, crate::specs::Words::state_word))]
fn put_reading(line: &mut Line, s: u8, seen: Seen)
    requires { length line.old + 34 ≤ 128 }
    ensures put { line.new ≡ line.old ++ reading_text s seen }
    ensures upper_bound { length line.new ≤ length line.old + 34 }
{
    match seen {
        Ok(Some(h)) => object::put_header(line, s, h),
        Ok(None) => line.put(b" Free"),
        Err(k) => put_refusal(line, k),
    }
}

// The fuse and the answer.
fn put_call(line: &mut Line, fuse: u32, answer: u8)
    requires { length line.old + 33 ≤ 128 }
    ensures put { line.new ≡ line.old ++ call_text fuse answer }
    ensures upper_bound { length line.new ≤ length line.old + 33 }
{
    line.put(b"fuse");
    number::put_field(line, fuse);
    line.put(b" answer");
    number::put_field(line, answer as u32)
}

// What the original and the copy read as.
fn put_pair(line: &mut Line, s: u8, original: Seen, copy: Seen)
    requires { length line.old + 82 ≤ 128 }
    ensures put { line.new ≡ line.old ++ pair_text s original copy }
    ensures upper_bound { length line.new ≤ length line.old + 82 }
{
    line.put(b" original");
    put_reading(line, s, original);
    line.put(b" copy");
    put_reading(line, s, copy)
}

fn put_agreement(line: &mut Line, agree: bool)
    requires { length line.old + 11 ≤ 128 }
    ensures put { line.new ≡ line.old ++ agree_text agree }
    ensures upper_bound { length line.new ≤ length line.old + 11 }
{
    line.put(b" agree");
    words::put_yes_no(line, agree);
    line.put(b"\n")
}

// "fuse", "answer", "original", "copy", "agree".
#[tactic(auto, unfolding(crate::specs::Lines::moment_line))]
pub fn moment_line(s: u8, fuse: u32, answer: u8, original: Seen, copy: Seen, agree: bool) -> Line
    ensures value { result ≡ moment_line s fuse answer original copy agree }
    ensures fits { length result ≤ 128 }
{
    let mut line = Line::new();
    put_call(&mut line, fuse, answer);
    put_pair(&mut line, s, original, copy);
    put_agreement(&mut line, agree);
    line
}

// The moment of the twin.
#[tactic(auto, unfolding(crate::specs::Lines::twin_line))]
pub fn twin_line(twin: Twin) -> Line
    ensures value { result ≡ twin_line twin }
    ensures fits { length result ≤ 128 }
{
    let mut line = Line::new();
    match twin {
        Twin::Never => line.put(b"no twin\n"),
        Twin::At(n) => put_twin_at(&mut line, n),
        Twin::From(a, b) => put_twin_span(&mut line, a, b),
    }
    line
}

#[tactic(auto, unfolding(crate::specs::Lines::twin_line))]
fn put_twin_at(line: &mut Line, n: u32)
    requires { length line.old ≡ 0 }
    ensures put { line.new ≡ line.old ++ twin_line (At n) }
    ensures upper_bound { length line.new ≤ length line.old + 24 }
{
    line.put(b"twin at fuse");
    number::put_field(line, n);
    line.put(b"\n");
}

#[tactic(auto, unfolding(crate::specs::Lines::twin_span))]
fn put_twin_span(line: &mut Line, a: u32, b: u32)
    requires { length line.old ≡ 0 }
    ensures put { line.new ≡ line.old ++ twin_span a b }
    ensures upper_bound { length line.new ≤ length line.old + 40 }
{
    line.put(b"twin from fuse");
    number::put_field(line, a);
    line.put(b" to");
    number::put_field(line, b);
    line.put(b"\n");
}
