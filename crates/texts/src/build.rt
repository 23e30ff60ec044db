// Texts that are too long to be written out.
use std::alloc::{AllocError, Global};

// A quote of that many bytes.
pub fn quoted(heap: Global, bytes: usize) -> Result<String, AllocError> {
    let quote = "#".repeat(heap, bytes)?;
    format!(in heap; "(seek \"{quote}\")")
}

// That many seqs, each in the one before.
pub fn nested(heap: Global, depth: usize) -> Result<String, AllocError> {
    let open = "(seq ".repeat(heap, depth)?;
    let close = ")".repeat(heap, depth)?;
    format!(in heap; "(seek {open}{close})")
}

// A text of that many bytes, mostly spaces.
pub fn padded(heap: Global, bytes: usize) -> Result<String, AllocError> {
    format!(in heap; "{:<bytes$}", "(seek (seq))")
}

// A set of that many items.
pub fn bare(heap: Global, items: usize) -> Result<String, AllocError> {
    let items = " 61".repeat(heap, items)?;
    format!(in heap; "(seek (set{items}))")
}
