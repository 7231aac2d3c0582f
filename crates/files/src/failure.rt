// What failed, and why, on standard error.
use std::io::{Error, Print};

// A line: what failed, as the caller names it, a colon and the error's text.
pub(crate) fn fail(rt: &HostRuntime, what: &[u8], error: Error) {
    tell(rt, what);
    tell(rt, b": ");
    tell_reason(rt, error);
    tell(rt, b"\n");
}

// The text of the C library alone: std writes the error's number behind it.
fn tell_reason(rt: &HostRuntime, error: Error) {
    let Ok(text) = format!(in rt.alloc(); "{error}") else {
        tell(rt, b"out of memory");
        return;
    };
    match text.as_str().split_once(" (os error ") {
        Some((reason, _)) => tell(rt, reason.as_bytes()),
        None => tell(rt, text.as_str().as_bytes()),
    }
}

// Nobody is left to tell that standard error cannot be written.
fn tell(rt: &HostRuntime, bytes: &[u8]) {
    let _ = rt.stderr().write_all(bytes);
}
