//! Kinds of bytes, and how far a kind goes on.
ghost use Rattle.cq_sql_language.specs.Characters.{is_blank, is_letter, is_digit, is_word_byte, begins};
ghost use Rattle.std.specs.List.{prefix_len};
ghost use Rattle.std.specs.Prelude.{◌≡◌, ◌-◌, ◌==◌, MatchOption, false, not, true};

pub fn is_blank(b: u8) -> bool
    ensures { result ≡ is_blank b }
{
    b == b' ' || b == b'\t' || b == b'\n' || b == b'\r'
}

pub fn is_letter(b: u8) -> bool
    ensures { result ≡ is_letter b }
{
    (b'A' <= b && b <= b'Z') || (b'a' <= b && b <= b'z') || b == b'_'
}

pub fn is_digit(b: u8) -> bool
    ensures { result ≡ is_digit b }
{
    b'0' <= b && b <= b'9'
}

/// The number that a digit stands for.
pub fn digit_value(b: u8) -> Option<u64>
    ensures { MatchOption result (is_digit b ≡ false) (λ n. (is_digit b ≡ true) × (n ≡ b - 48)) }
{
    let value = u64::from(b).wrapping_sub(u64::from(b'0'));
    (value <= 9).then_some(value)
}

fn is_word_byte(b: u8) -> bool
    ensures { result ≡ is_word_byte b }
{
    b'0' <= b && (is_letter(b) || is_digit(b))
}

pub fn begins_word_byte(bytes: &[u8]) -> bool
    ensures { result ≡ begins is_word_byte bytes.now }
{
    match bytes {
        [b, ..] => is_word_byte(*b),
        [] => false,
    }
}

pub fn begins_digit(bytes: &[u8]) -> bool
    ensures { result ≡ begins is_digit bytes.now }
{
    match bytes {
        [b, ..] => is_digit(*b),
        [] => false,
    }
}

pub fn word_len(bytes: &[u8]) -> usize
    ensures { result ≡ prefix_len is_word_byte bytes.now }
{
    bytes.iter().take_while(|b| is_word_byte(**b)).count()
}

pub fn digits_len(bytes: &[u8]) -> usize
    ensures { result ≡ prefix_len is_digit bytes.now }
{
    bytes.iter().take_while(|b| is_digit(**b)).count()
}

/// How many bytes stand before the first LF.
pub fn line_len(bytes: &[u8]) -> usize
    ensures { result ≡ prefix_len (λ b. not (b == 10)) bytes.now }
{
    bytes.iter().take_while(|b| **b != b'\n').count()
}
