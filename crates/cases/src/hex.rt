// Bytes written as hexadecimal digits.
use std::alloc::{AllocError, Global};

/// The bytes that a text names, two hexadecimal digits each; any other character is passed over.
pub fn bytes(heap: Global, text: &str) -> Result<Vec<u8>, AllocError> {
    let mut out = Vec::new(heap);
    let mut high = None;
    for digit in text.bytes().filter_map(digit) {
        high = match high {
            Some(high) => {
                out.push(high << 4 | digit)?;
                None
            }
            None => Some(digit),
        };
    }
    Ok(out)
}

// The value of a hexadecimal digit.
fn digit(b: u8) -> Option<u8> {
    match b {
        b'0'..=b'9' => Some(b - b'0'),
        b'A'..=b'F' => Some(b - b'A' + 10),
        b'a'..=b'f' => Some(b - b'a' + 10),
        _ => None,
    }
}
