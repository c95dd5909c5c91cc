//! The texts of whole numbers.

ghost use Rattle.std.specs.Prelude.{min, neg_ℤ, pos, Some, ◌+◌, ◌*◌, ◌-◌, ◌^◌, ◌≡◌};
ghost use Rattle.std.specs.Char.{is_ascii_digit};
ghost use Rattle.std.specs.List.{list_all};
ghost use Rattle.zq_words.specs.Words.{are_all, if_passes, is_i64, number_of, whole_of, without_sign};

/// The amount of the least `i64`.
const LEAST: u64 = 9_223_372_036_854_775_808;

/// The whole number that a text writes: a sign or none, and one or more digits. `None` for another
/// text, and for a number that an `i64` does not hold.
pub fn parse_whole(text: &[u8]) -> Option<i64>
    ensures { result ≡ whole_of text.now }
{
    let digits = digits_of(text);
    if !are_digits(digits) {
        return None;
    }
    let amount = amount_of(digits);
    if text.first() == Some(&b'-') {
        negated(amount)
    } else {
        i64::try_from(amount).ok()
    }
}

/// The number of this amount below 0, if an `i64` holds it.
fn negated(amount: u64) -> Option<i64>
    ensures { result ≡ if_passes is_i64 (Some (neg_ℤ (pos amount))) }
{
    match i64::try_from(amount) {
        Ok(number) => Some(-number),
        Err(_) if amount == LEAST => Some(i64::MIN),
        Err(_) => None,
    }
}

fn are_digits(text: &[u8]) -> bool
    ensures { result ≡ are_all is_ascii_digit text.now }
{
    !text.is_empty() && has_only_digits(text)
}

fn has_only_digits(text: &[u8]) -> bool
    ensures { result ≡ list_all is_ascii_digit text.now }
{
    text.iter().all(|byte| byte.is_ascii_digit())
}

fn digits_of(text: &[u8]) -> &[u8]
    ensures { result.now ≡ without_sign text.now }
{
    match text.first() {
        Some(b'+' | b'-') => &text[1..],
        _ => text,
    }
}

/// The number that the digits write, or 2^64 - 1 where it is greater.
fn amount_of(digits: &[u8]) -> u64
    ensures { result ≡ min (number_of digits.now) (2 ^ 64 - 1) }
{
    let mut amount = 0u64;
    for digit in digits {
        amount = with_digit(amount, *digit);
    }
    amount
}

/// The amount with a digit behind it, or 2^64 - 1 where that is greater.
fn with_digit(amount: u64, digit: u8) -> u64
    ensures { result ≡ min (10 * amount + (digit - 48)) (2 ^ 64 - 1) }
{
    amount
        .saturating_mul(10)
        .saturating_add(u64::from(digit.saturating_sub(b'0')))
}
