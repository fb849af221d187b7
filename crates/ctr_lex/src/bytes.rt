// The classes of bytes, and how long a line goes on in one of them.
ghost use Rattle.std.specs.Prelude.{◌≡◌, ◌≤◌, ◌<◌, ◌↔◌, ℕ, length, IsTrue, true, false, slice_index};
ghost use Rattle.ctr_model.specs.Grammar.{IsBlank, IsDigit, IsLetter, IsPrintable, IsSign, IsWordByte};

pub(crate) fn is_blank(byte: u8) -> bool
    ensures { IsTrue result ↔ IsBlank byte }
{
    byte == b' ' || byte == b'\t'
}

pub(crate) fn is_printable(byte: u8) -> bool
    ensures { IsTrue result ↔ IsPrintable byte }
{
    b' ' <= byte && byte <= b'~'
}

pub(crate) fn is_digit(byte: u8) -> bool
    ensures { IsTrue result ↔ IsDigit byte }
{
    b'0' <= byte && byte <= b'9'
}

pub(crate) fn is_letter(byte: u8) -> bool
    ensures { IsTrue result ↔ IsLetter byte }
{
    b'A' <= byte && byte <= b'Z' || b'a' <= byte && byte <= b'z' || byte == b'_'
}

fn is_word_byte(byte: u8) -> bool
    ensures { IsTrue result ↔ IsWordByte byte }
{
    is_letter(byte) || is_digit(byte)
}

pub(crate) fn is_sign(byte: u8) -> bool
    ensures { IsTrue result ↔ IsSign byte }
{
    byte == b'>'
        || byte == b';'
        || byte == b'('
        || byte == b')'
        || byte == b','
        || byte == b'='
        || byte == b'+'
        || byte == b'*'
}

// How many bytes they begin with that are so.
fn front_len<P: Fn(u8) -> bool>(bytes: &[u8], is: P) -> usize
    requires { P.IsAlwaysCallable is }
    ensures within { result ≤ length bytes.now }
    ensures all { (k : ℕ) → k < result → P.post is (slice_index bytes.now k) true }
    ensures stops { result < length bytes.now → P.post is (slice_index bytes.now result) false }
{
    for (i, byte) in bytes.iter().enumerate() {
        if !is(*byte) {
            return i;
        }
    }
    bytes.len()
}

/// How many blanks the bytes begin with.
pub fn blanks_len(bytes: &[u8]) -> usize
    ensures within { result ≤ length bytes.now }
    ensures all { (k : ℕ) → k < result → IsBlank (slice_index bytes.now k) }
    ensures stops { result < length bytes.now → IsBlank (slice_index bytes.now result) → ⊥ }
{
    front_len(bytes, is_blank)
}

/// How many letters, digits and _ they begin with.
pub(crate) fn word_len(bytes: &[u8]) -> usize
    ensures within { result ≤ length bytes.now }
    ensures all { (k : ℕ) → k < result → IsWordByte (slice_index bytes.now k) }
    ensures stops { result < length bytes.now → IsWordByte (slice_index bytes.now result) → ⊥ }
{
    front_len(bytes, is_word_byte)
}

/// How many digits they begin with.
pub(crate) fn digits_len(bytes: &[u8]) -> usize
    ensures within { result ≤ length bytes.now }
    ensures all { (k : ℕ) → k < result → IsDigit (slice_index bytes.now k) }
    ensures stops { result < length bytes.now → IsDigit (slice_index bytes.now result) → ⊥ }
{
    front_len(bytes, is_digit)
}
