//! The documents of a file.
use std::alloc::{AllocError, Global};

/// Cuts the bytes of a file into documents: one if the name ends in `.json`, and else one a line.
///
/// A line feed at the end begins no further line.
pub(crate) fn split(alloc: Global, bytes: Vec<u8>, name: &str) -> Result<Vec<Vec<u8>>, AllocError> {
    if name.ends_with(".json") {
        return Ok(vec![in alloc; bytes]?);
    }
    let mut documents = Vec::new(alloc);
    if bytes.is_empty() {
        return Ok(documents);
    }
    for line in lines(&bytes).split(|byte| *byte == b'\n') {
        documents.push(Vec::from_slice(alloc, line)?)?;
    }
    Ok(documents)
}

/// The bytes without a line feed at the end.
fn lines(bytes: &[u8]) -> &[u8] {
    bytes.strip_suffix(b"\n").unwrap_or(bytes)
}
