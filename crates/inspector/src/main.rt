// The inspector: prints what stands in an image.
//
//   inspector                    reads geometry.bin and image.bin
//   inspector GEOMETRY IMAGE     reads these files
//
// A line a block: its number, kind, erase count, used bytes, and whether objects may be allocated in it; or "refused" and a number. Behind
// the line of a Metadata, Data or Undefined block stands a line an object: block, offset, type, state and payload size, or `-` for a size
// that is not set.
#![tactic(auto)]

use blocks::record::BlockInfo;
use files::LoadError;
use medium::geometry::Geometry;
use medium::refusal::Refusal;
use objects::header::ObjectHeader;
use objects::iterator::{Next, ObjectIterator};
use std::env::{Env, FillError};

fn print_refusal(rt: &HostRuntime, refusal: Refusal) {
    let line = lines::refusal::refusal_line(refusal.number());
    let _ = rt.stdout().write_all(line.as_bytes());
}

fn print_object(rt: &HostRuntime, s: u8, h: ObjectHeader) {
    let line = lines::object::object_line(s, h);
    let _ = rt.stdout().write_all(line.as_bytes());
}

fn print_objects(rt: &HostRuntime, g: Geometry, image: &[u8], block: u32) {
    let mut i = ObjectIterator::new(g, block);
    while let Ok(Next::Object(h, behind)) = i.next(g, image) {
        print_object(rt, g.s, h);
        i = behind;
    }
}

fn print_record(rt: &HostRuntime, block: u32, scan: Result<BlockInfo, Refusal>) {
    let line = lines::block::block_line(block, scan.map_err(Refusal::number));
    let _ = rt.stdout().write_all(line.as_bytes());
}

// The line of a block, and its objects if its kind is known.
fn print_block(rt: &HostRuntime, g: Geometry, image: &[u8], block: u32) {
    let scan = blocks::scan::scan_block(g, image, block);
    print_record(rt, block, scan);
    if let Ok(info) = scan {
        if info.header.kind.is_known() {
            print_objects(rt, g, image, block);
        }
    }
}

fn print_image(rt: &HostRuntime, g: Geometry, image: &[u8]) {
    for block in 0..g.count {
        print_block(rt, g, image, block);
    }
}

fn inspect(rt: &HostRuntime, geometry: &[u8], image: &[u8]) {
    let mut buffer = [0; 65536];
    match files::load(rt, geometry, image, &mut buffer) {
        Ok((g, n)) => print_image(rt, g, &buffer[..n]),
        Err(LoadError::Refused(refusal)) => print_refusal(rt, refusal),
        Err(LoadError::Failed) => {}
    }
}

// What the C library says of an argument that is missing, and of one that is too long.
fn fail_at_name(rt: &HostRuntime, what: &[u8], e: FillError) {
    let reason: &[u8] = match e {
        FillError::NotPresent => b"Invalid argument",
        FillError::TooLong => b"File name too long",
    };
    let _ = rt.stderr().write_all(what);
    let _ = rt.stderr().write_all(b": ");
    let _ = rt.stderr().write_all(reason);
    let _ = rt.stderr().write_all(b"\n");
}

// The files that two arguments name.
fn inspect_named(rt: &HostRuntime) {
    let mut geometry = [0; 4096];
    let n = match rt.arg(1, &mut geometry) {
        Ok(n) => n,
        Err(e) => return fail_at_name(rt, b"the name of the geometry file", e),
    };
    let mut image = [0; 4096];
    let m = match rt.arg(2, &mut image) {
        Ok(m) => m,
        Err(e) => return fail_at_name(rt, b"the name of the image file", e),
    };
    inspect(rt, &geometry[..n], &image[..m]);
}

// How many arguments there are, the program's own name among them.
fn arg_count(rt: &HostRuntime) -> usize {
    for i in 0..usize::MAX {
        if let Err(FillError::NotPresent) = rt.arg(i, &mut []) {
            return i;
        }
    }
    usize::MAX
}

fn main(rt: HostRuntime) {
    match arg_count(&rt) {
        1 => inspect(&rt, b"geometry.bin", b"image.bin"),
        3 => inspect_named(&rt),
        _ => {
            let _ = rt
                .stderr()
                .write_all(b"usage: inspector [GEOMETRY IMAGE]\n");
        }
    }
}
