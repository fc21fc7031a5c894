// How a run ended, as one text, so that what is wanted and what is found can be compared and printed.
use std::alloc::{AllocError, Global};

// What stands before the bytes of a sink: its name, and how many there are.
fn head(alloc: Global, name: &str, length: usize) -> Result<String, AllocError> {
    let mut text = String::from_str(alloc, ", ")?;
    text.push_str(name)?;
    write!(text, " of {length} bytes: ")?;
    Ok(text)
}

// Adds the bytes of a sink.
fn push_sink(alloc: Global, all: &mut Vec<u8>, name: &str, bytes: &[u8]) -> Result<(), AllocError> {
    let head = head(alloc, name, bytes.len())?;
    all.extend_from_slice(head.as_bytes())?;
    all.extend_from_slice(bytes)
}

// The exit status.
pub(crate) fn status_told(alloc: Global, status: usize) -> Result<Vec<u8>, AllocError> {
    let text = format!(in alloc; "status {status}")?;
    Vec::from_slice(alloc, text.as_bytes())
}

// The exit status, and what the two sinks hold.
pub(crate) fn all_told(
    alloc: Global,
    status: usize,
    out: &[u8],
    diag: &[u8],
) -> Result<Vec<u8>, AllocError> {
    let mut all = status_told(alloc, status)?;
    push_sink(alloc, &mut all, "out", out)?;
    push_sink(alloc, &mut all, "diag", diag)?;
    Ok(all)
}
