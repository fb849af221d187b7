// Bytes as they are written.

// The value of a digit in base 16, or 0.
fn digit(byte: u8) -> u8 {
    match byte {
        b'0'..=b'9' => byte.wrapping_sub(b'0'),
        b'a'..=b'f' => byte.wrapping_sub(b'a').wrapping_add(10),
        _ => 0,
    }
}

/// The byte that two digits in base 16 are.
pub fn byte_of(pair: &[u8]) -> u8 {
    let mut byte = 0u8;
    for one in pair {
        byte = byte.wrapping_mul(16).wrapping_add(digit(*one));
    }
    byte
}
