// Words and numbers of a line.

/// The last word of a line.
pub fn last_word(line: &[u8]) -> &[u8] {
    let mut last = line;
    for word in line.split(|byte| *byte == b' ') {
        last = word;
    }
    last
}

fn digit(byte: u8) -> Option<i128> {
    match byte {
        b'0'..=b'9' => Some((byte - b'0') as i128),
        _ => None,
    }
}

fn counted(digits: &[u8], sign: i128) -> Option<i128> {
    if digits.is_empty() {
        return None;
    }
    let mut number = 0i128;
    for byte in digits {
        let step = digit(*byte)?.checked_mul(sign)?;
        number = number.checked_mul(10)?.checked_add(step)?;
    }
    Some(number)
}

/// The whole number that a word is, if it is one: digits, or `-` and digits.
pub fn signed(word: &[u8]) -> Option<i128> {
    match word.split_first() {
        Some((b'-', digits)) => counted(digits, -1),
        _ => counted(word, 1),
    }
}

/// The same without a sign, up to 128 bits.
pub fn wide(word: &[u8]) -> Option<u128> {
    if word.is_empty() {
        return None;
    }
    let mut number = 0u128;
    for byte in word {
        let step = u128::try_from(digit(*byte)?).ok()?;
        number = number.checked_mul(10)?.checked_add(step)?;
    }
    Some(number)
}

/// The same, up to 64 bits.
pub fn number(word: &[u8]) -> Option<u64> {
    u64::try_from(wide(word)?).ok()
}
