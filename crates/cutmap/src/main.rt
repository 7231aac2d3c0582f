// The cut map: what a move of an object leaves if the power goes after 0, 1, 2 .. units.
//
//   cutmap BLOCK OFFSET TO-BLOCK TO-OFFSET
//
// reads geometry.bin and image.bin, and moves the object at a block and offset to another place, each time on a fresh copy of the image,
// with a fuse from 0 to one past the last unit. A line a fuse: the answer, what the original and the copy read as, and whether their types
// and payloads agree. The last line names the moment of the twin: the fuse at which both are whole.
#![tactic(auto)]

ghost use Rattle.std.specs.Prelude.{◌≤◌, ◌≡◌, length};

use cuts::moment::Moment;
use files::LoadError;
use lines::moment::Twin;
use medium::geometry::Geometry;
use medium::refusal;
use medium::refusal::Refusal;
use objects::header::ObjectHeader;
use objects::location::ObjectLocation;
use std::env::{Env, FillError};

// More than a move can take: the payload of a whole block, its size, and four units.
const MOST_UNITS: u32 = 65600;

fn print_refusal(rt: &HostRuntime, refusal: Refusal) {
    let line = lines::refusal::refusal_line(refusal.number());
    let _ = rt.stdout().write_all(line.as_bytes());
}

fn print_moment(rt: &HostRuntime, s: u8, fuse: u32, m: Moment) {
    let line = lines::moment::moment_line(
        s,
        fuse,
        refusal::number(m.answer),
        m.original.map_err(Refusal::number),
        m.copy.map_err(Refusal::number),
        m.agree,
    );
    let _ = rt.stdout().write_all(line.as_bytes());
}

fn print_twin(rt: &HostRuntime, t: Twin) {
    let line = lines::moment::twin_line(t);
    let _ = rt.stdout().write_all(line.as_bytes());
}

// The fuses of the twin, with one more.
fn with(t: Twin, fuse: u32) -> Twin {
    match t {
        Twin::Never => Twin::At(fuse),
        Twin::At(a) => Twin::From(a, fuse),
        Twin::From(a, _) => Twin::From(a, fuse),
    }
}

// One fuse, on a fresh copy of the image.
fn cut(
    rt: &HostRuntime,
    g: Geometry,
    image: &[u8],
    work: &mut [u8],
    fuse: u32,
    h: ObjectHeader,
    to: ObjectLocation,
) -> Moment
    requires { length image.now ≡ length work.old }
{
    work.copy_from_slice(image);
    let m = cuts::moment::move_under(g, work, fuse, h, to);
    print_moment(rt, g.s, fuse, m);
    m
}

// Where to stop: behind the fuse that follows the first one that is enough.
fn end_after(end: u32, fuse: u32, answer: Result<(), Refusal>) -> u32
    requires { fuse ≤ 65600 }
    ensures { result ≤ end }
{
    if answer == Err(Refusal::PowerLost) {
        return end;
    }
    end.min(fuse + 2)
}

fn print_map(
    rt: &HostRuntime,
    g: Geometry,
    image: &[u8],
    work: &mut [u8],
    h: ObjectHeader,
    to: ObjectLocation,
)
    requires { length image.now ≡ length work.old }
{
    let mut twin = Twin::Never;
    let mut end = MOST_UNITS;
    let mut fuse = 0;
    // No range: the end comes nearer in the loop.
    while fuse < end {
        let m = cut(rt, g, image, work, fuse, h, to);
        if m.twin {
            twin = with(twin, fuse);
        }
        end = end_after(end, fuse, m.answer);
        fuse += 1;
    }
    print_twin(rt, twin);
}

fn map_object(rt: &HostRuntime, g: Geometry, image: &[u8], from: ObjectLocation, to: ObjectLocation)
    requires { length image.now ≤ 65536 }
{
    let h = match ObjectHeader::read(g, image, from) {
        Ok(h) => h,
        Err(refusal) => return print_refusal(rt, refusal),
    };
    let n = image.len();
    let mut work = [0; 65536];
    print_map(rt, g, image, &mut work[..n], h, to);
}

fn map(rt: &HostRuntime, from: ObjectLocation, to: ObjectLocation) {
    let mut buffer = [0; 65536];
    match files::load(rt, b"geometry.bin", b"image.bin", &mut buffer) {
        Ok((g, n)) => map_object(rt, g, &buffer[..n], from, to),
        Err(LoadError::Refused(refusal)) => print_refusal(rt, refusal),
        Err(LoadError::Failed) => {}
    }
}

fn argument(rt: &HostRuntime, i: usize) -> Option<u32> {
    let mut text = [0; 16];
    let n = rt.arg(i, &mut text).ok()?;
    lines::argument::number_of(&text[..n])
}

fn usage(rt: &HostRuntime) {
    let _ = rt
        .stderr()
        .write_all(b"usage: cutmap BLOCK OFFSET TO-BLOCK TO-OFFSET\n");
}

// The place that two arguments name.
fn place_of(rt: &HostRuntime, i: usize) -> Option<ObjectLocation>
    requires { i ≤ 8 }
{
    let block = argument(rt, i)?;
    let offset = argument(rt, i + 1)?;
    Some(ObjectLocation {
        block: block,
        offset: offset,
    })
}

// How many arguments there are, the program's own name among them.
fn arg_count(rt: &HostRuntime) -> usize {
    for i in 0..usize::MAX {
        if let Err(FillError::NotPresent) = rt.arg(i, &mut []) {
            return i;
        }
    }
    usize::MAX
}

// Where the object stands, and where it is to go.
fn places(rt: &HostRuntime) -> Option<(ObjectLocation, ObjectLocation)> {
    if arg_count(rt) != 5 {
        return None;
    }
    Some((place_of(rt, 1)?, place_of(rt, 3)?))
}

fn main(rt: HostRuntime) {
    match places(&rt) {
        Some((from, to)) => map(&rt, from, to),
        None => usage(&rt),
    }
}
