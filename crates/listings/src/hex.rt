// Bytes written as hexadecimal digits.
use super::failure::ListingsFailure;
use std::alloc::Global;

// What one digit counts. The crate `hex` would take the digits A to F too.
fn digit(byte: u8) -> Result<u8, ListingsFailure> {
    match byte {
        b'0'..=b'9' => Ok(byte - b'0'),
        b'a'..=b'f' => Ok(byte - b'a' + 10),
        _ => Err(ListingsFailure::NotHex),
    }
}

// The bytes of a word, two digits for each.
pub fn read_bytes(heap: Global, word: &str) -> Result<Vec<u8>, ListingsFailure> {
    let (pairs, []) = word.as_bytes().as_chunks::<2>() else {
        return Err(ListingsFailure::NotHex);
    };
    // by a loop, since a chain that ends in `try_collect` takes half as long again
    let mut bytes = Vec::new(heap);
    for [high, low] in pairs {
        bytes.push(digit(*high)? << 4 | digit(*low)?)?;
    }
    Ok(bytes)
}
