// A file, from its start to its end.
ghost use Rattle.std.specs.Prelude.{length};
ghost use Rattle.files.specs.Files.{FileFits};

use crate::failure::fail;
use std::fs::File;
use std::io;
use std::io::{ErrorKind, Read};

// Why a file is not in the buffer.
#[derive(Clone, Copy, Debug, PartialEq, Eq)]
pub enum ReadError {
    // It has more bytes than the buffer holds.
    TooLong,
    // It cannot be read, and standard error has been told.
    Failed,
}

// What one read gives: how many bytes, and 0 at the end.
fn read_some(
    rt: &HostRuntime,
    file: &mut File,
    path: &[u8],
    rest: &mut [u8],
) -> Result<usize, ReadError>
    ensures { FileFits result (length rest.old) }
{
    match file.read(rest) {
        Ok(n) => Ok(n),
        Err(e) => {
            fail(rt, path, e);
            Err(ReadError::Failed)
        }
    }
}

// A buffer that is full holds the whole file if nothing comes any more.
fn at_end(rt: &HostRuntime, file: &mut File, path: &[u8], n: usize) -> Result<usize, ReadError>
    ensures { FileFits result n }
{
    let mut more = [0u8; 1];
    match read_some(rt, file, path, &mut more)? {
        0 => Ok(n),
        _ => Err(ReadError::TooLong),
    }
}

// Reads on until the file ends: std's read_to_end needs a heap.
fn fill(
    rt: &HostRuntime,
    file: &mut File,
    path: &[u8],
    buffer: &mut [u8],
) -> Result<usize, ReadError>
    ensures { FileFits result (length buffer.old) }
{
    let mut n = 0;
    // No range: a step is as many bytes as were read.
    while n < buffer.len() {
        match read_some(rt, file, path, &mut buffer[n..])? {
            0 => return Ok(n),
            k => n += k,
        }
    }
    at_end(rt, file, path, n)
}

// The library opens a file by text alone.
fn open(rt: &HostRuntime, path: &[u8]) -> io::Result<File> {
    match str::from_utf8(path) {
        Ok(text) => File::open(rt, text),
        Err(_) => Err(io::Error::new(ErrorKind::InvalidFilename, "the name is not UTF-8")),
    }
}

// Reads the file into the first bytes of the buffer; how many it has.
pub fn read(rt: &HostRuntime, path: &[u8], buffer: &mut [u8]) -> Result<usize, ReadError>
    ensures { FileFits result (length buffer.old) }
{
    match open(rt, path) {
        Ok(mut file) => fill(rt, &mut file, path, buffer),
        Err(e) => {
            fail(rt, path, e);
            Err(ReadError::Failed)
        }
    }
}
