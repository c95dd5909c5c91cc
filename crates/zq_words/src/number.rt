//! The texts of numbers.

ghost use Rattle.std.specs.Prelude.{◌+◌, ◌-◌, ◌*◌, ◌^◌, ◌&&◌, min, neg_ℤ, not, pos, None, Some, IfNone, IfSome, IsTrue, ◌<◌, ◌≡◌, position, length, if◌then◌else◌};
ghost use Rattle.std.specs.List.{list_all, list_any, before_first, after_first};
ghost use Rattle.std.specs.Char.{is_ascii_digit};
ghost use Rattle.std.specs.Option.{option_map};
ghost use Rattle.zq_words.specs.Words.{if_passes, are_all, number_of, without_sign, is_i64, is_in_range, is_point, is_zero, written_score, whole_of};

use zq_dots::GREATEST;

/// The amount of the least `i64`.
const LEAST: u64 = 9_223_372_036_854_775_808;

/// A number of so many digits takes 64 bits at most.
const FEW_DIGITS: usize = 18;

/// The score that a text writes: a sign or none, one or more digits, and then nothing or a point
/// with one or more zeros behind it. `None` for another text, and for a number whose amount is
/// above 9,007,199,254,740,992.
#[inline(always)]
pub fn parse_score(text: &[u8]) -> Option<i64>
    ensures { result ≡ written_score text.now }
{
    match plain_amount(text) {
        Some(amount) => within(amount),
        None => in_range(parse_whole(whole_part(text)?)),
    }
}

/// What a text of at most 18 digits, and of nothing else, writes, and `None` for any other text.
/// Most scores are such texts, and one pass reads them.
fn plain_amount(text: &[u8]) -> Option<u64>
    ensures digits { IfSome result (λ amount. IsTrue (are_all is_ascii_digit text.now)) }
    ensures amount { IfSome result (λ amount. amount ≡ number_of text.now) }
    ensures none { IfNone result (IsTrue (are_all is_ascii_digit text.now) → 18 < length text.now) }
{
    if text.is_empty() || text.len() > FEW_DIGITS {
        return None;
    }
    let mut amount = 0u64;
    for digit in text {
        if !digit.is_ascii_digit() {
            return None;
        }
        amount = amount * 10 + u64::from(*digit - b'0');
    }
    Some(amount)
}

/// The whole number that a text writes: a sign or none, and one or more digits. `None` for another
/// text, and for a number that an `i64` does not hold.
pub fn parse_whole(text: &[u8]) -> Option<i64>
    ensures { result ≡ whole_of text.now }
{
    let digits = digits_of(text);
    if !are_digits(digits) {
        return None;
    }
    let amount = amount_of(digits);
    if text.first() == Some(&b'-') {
        negated(amount)
    } else {
        i64::try_from(amount).ok()
    }
}

/// The number of this amount, if it is a score.
fn within(amount: u64) -> Option<i64>
    ensures { result ≡ if_passes is_in_range (Some (pos amount)) }
{
    match i64::try_from(amount) {
        Ok(number) => in_range(Some(number)),
        Err(_) => None,
    }
}

/// The number, if it is a score.
fn in_range(number: Option<i64>) -> Option<i64>
    ensures { result ≡ if_passes is_in_range number }
{
    let number = number?;
    if -GREATEST <= number && number <= GREATEST {
        Some(number)
    } else {
        None
    }
}

/// The number of this amount below 0, if an `i64` holds it.
fn negated(amount: u64) -> Option<i64>
    ensures { result ≡ if_passes is_i64 (Some (neg_ℤ (pos amount))) }
{
    match i64::try_from(amount) {
        Ok(number) => Some(-number),
        Err(_) if amount == LEAST => Some(i64::MIN),
        Err(_) => None,
    }
}

/// The text before the point, or all of it where there is none.
fn whole_part(text: &[u8]) -> Option<&[u8]>
    ensures { option_map (λ part. part.now) result ≡
        (if list_any is_point text.now && not
        (are_all is_zero (after_first is_point text.now)) then None else Some
        (before_first is_point text.now)) }
{
    match point_of(text) {
        None => Some(text),
        Some(point) if are_zeros(&text[point + 1..]) => Some(&text[..point]),
        Some(_) => None,
    }
}

fn point_of(text: &[u8]) -> Option<usize>
    ensures place { result ≡ position is_point text.now }
    ensures inside { IfSome result (λ point. point < length text.now) }
{
    text.iter().position(|byte| *byte == b'.')
}

fn are_zeros(text: &[u8]) -> bool
    ensures { result ≡ are_all is_zero text.now }
{
    !text.is_empty() && has_only_zeros(text)
}

fn has_only_zeros(text: &[u8]) -> bool
    ensures { result ≡ list_all is_zero text.now }
{
    text.iter().all(|byte| *byte == b'0')
}

fn are_digits(text: &[u8]) -> bool
    ensures { result ≡ are_all is_ascii_digit text.now }
{
    !text.is_empty() && has_only_digits(text)
}

fn has_only_digits(text: &[u8]) -> bool
    ensures { result ≡ list_all is_ascii_digit text.now }
{
    text.iter().all(|byte| byte.is_ascii_digit())
}

fn digits_of(text: &[u8]) -> &[u8]
    ensures { result.now ≡ without_sign text.now }
{
    match text.first() {
        Some(b'+' | b'-') => &text[1..],
        _ => text,
    }
}

/// The number that the digits write, or 2^64 - 1 where it is greater.
fn amount_of(digits: &[u8]) -> u64
    ensures { result ≡ min (number_of digits.now) (2 ^ 64 - 1) }
{
    let mut amount = 0u64;
    for digit in digits {
        amount = with_digit(amount, *digit);
    }
    amount
}

/// The amount with a digit behind it, or 2^64 - 1 where that is greater.
fn with_digit(amount: u64, digit: u8) -> u64
    ensures { result ≡ min (10 * amount + (digit - 48)) (2 ^ 64 - 1) }
{
    amount
        .saturating_mul(10)
        .saturating_add(u64::from(digit.saturating_sub(b'0')))
}
