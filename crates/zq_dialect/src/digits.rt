//! Signs, points, and the digits between them.

ghost use Rattle.std.specs.Prelude.{◌+◌, ◌-◌, ◌*◌, ◌^◌, ◌&&◌, ◌||◌, min, not, IfSome, ◌<◌, ◌≡◌, codes, position, length, slice_index_or};
ghost use Rattle.std.specs.List.{list_all, list_any, before_first, after_first};
ghost use Rattle.std.specs.Char.{is_ascii_digit};
ghost use Rattle.zq_dialect.specs.Numbers.{is_mark};
ghost use Rattle.zq_dialect.specs.Spelled.{is_plain};
ghost use Rattle.zq_words.specs.Words.{are_all, begins, is_point, is_zero, number_of, without_sign};

/// Whether the text has the form that `zq_words` reads as a score, whatever its amount: a sign or
/// none, digits, and then nothing or a point with zeros behind it.
pub fn is_plain_number(text: &[u8]) -> bool
    ensures { result ≡ is_plain text.now }
{
    match point_of(text) {
        None => are_digits(unsigned(text)),
        Some(point) => are_zeros(&text[point + 1..]) && are_digits(unsigned(&text[..point])),
    }
}

/// The place of the first point.
pub fn point_of(text: &[u8]) -> Option<usize>
    ensures place { result ≡ position is_point text.now }
    ensures inside { IfSome result (λ point. point < length text.now) }
{
    text.iter().position(|byte| *byte == b'.')
}

/// The place of the first `e` or `E`.
pub fn mark_of(text: &[u8]) -> Option<usize>
    ensures place { result ≡ position is_mark text.now }
    ensures inside { IfSome result (λ mark. mark < length text.now) }
{
    text.iter().position(|byte| *byte == b'e' || *byte == b'E')
}

pub fn is_negative(text: &[u8]) -> bool
    ensures { result ≡ begins text.now (codes "-") }
{
    text.first() == Some(&b'-')
}

/// The text behind a sign, where it has one.
pub fn unsigned(text: &[u8]) -> &[u8]
    ensures { result.now ≡ without_sign text.now }
{
    match text.first() {
        Some(b'+' | b'-') => &text[1..],
        _ => text,
    }
}

/// Whether the text is one or more digits.
pub fn are_digits(text: &[u8]) -> bool
    ensures { result ≡ are_all is_ascii_digit text.now }
{
    !text.is_empty() && has_only_digits(text)
}

pub fn has_only_digits(text: &[u8]) -> bool
    ensures { result ≡ list_all is_ascii_digit text.now }
{
    text.iter().all(|byte| byte.is_ascii_digit())
}

pub fn are_zeros(text: &[u8]) -> bool
    ensures { result ≡ are_all is_zero text.now }
{
    !text.is_empty() && has_only_zeros(text)
}

pub fn has_only_zeros(text: &[u8]) -> bool
    ensures { result ≡ list_all is_zero text.now }
{
    text.iter().all(|byte| *byte == b'0')
}

/// The number that the digits write, or 2^64 - 1 where it is greater.
pub fn amount_of(digits: &[u8]) -> u64
    ensures { result ≡ min (number_of digits.now) (2 ^ 64 - 1) }
{
    let mut amount = 0u64;
    for digit in digits {
        amount = with_digit(amount, *digit);
    }
    amount
}

/// The amount with a digit behind it, or 2^64 - 1 where that is greater.
pub fn with_digit(amount: u64, digit: u8) -> u64
    ensures { result ≡ min (10 * amount + (digit - 48)) (2 ^ 64 - 1) }
{
    amount
        .saturating_mul(10)
        .saturating_add(u64::from(digit.saturating_sub(b'0')))
}
