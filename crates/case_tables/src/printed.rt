use std::alloc::{AllocError, Global};

// A byte as a value of a table writes it.
fn push_byte(out: &mut String, byte: u8) -> Result<(), AllocError> {
    match byte {
        b'\n' => out.push_str("\\n"),
        b'\t' => out.push_str("\\t"),
        b'\r' => out.push_str("\\r"),
        b'\\' => out.push_str("\\\\"),
        32..=126 => out.push(char::from(byte)),
        _ => write!(out, "\\x{byte:02x}"),
    }
}

/// The bytes as a value of a table writes them.
pub(crate) fn shown(alloc: Global, bytes: &[u8]) -> Result<String, AllocError> {
    let mut out = String::new(alloc);
    for byte in bytes {
        push_byte(&mut out, *byte)?;
    }
    Ok(out)
}
