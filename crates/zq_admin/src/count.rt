//! How many keys are asked for.

ghost use Rattle.std.specs.Prelude.{◌≡◌, option_copied};
ghost use Rattle.zq_admin.specs.Counts as wanted;

/// How many keys are shown where a request does not say.
pub const USUAL_KEYS: u64 = 20;

/// The most keys that are shown.
pub const MOST_KEYS: u64 = 1_000;

/// How many keys the query asks for: `n=` and 1 to 1000 in decimal digits, and 20 where there is no
/// query.
pub fn count_in(query: Option<&str>) -> Option<u64>
    ensures { result ≡ wanted.count_in (option_copied query.entry) }
{
    match query {
        None => Some(USUAL_KEYS),
        Some(query) => match query.strip_prefix("n=") {
            Some(digits) => count_of(digits),
            None => None,
        },
    }
}

/// The number that the digits write, which is 1 to 1000.
fn count_of(digits: &str) -> Option<u64>
    ensures { result ≡ wanted.count_of digits.now }
{
    if !are_digits(digits.as_bytes()) {
        return None;
    }
    let number = digits.parse::<u64>().ok()?;
    bounded(number)
}

/// The number, which is 1 to 1000.
fn bounded(number: u64) -> Option<u64>
    ensures { result ≡ wanted.bounded number }
{
    if 1 <= number && number <= MOST_KEYS {
        Some(number)
    } else {
        None
    }
}

/// Whether all are digits.
fn are_digits(bytes: &[u8]) -> bool
    ensures { result ≡ wanted.are_digits bytes.now }
{
    bytes.iter().all(|byte| byte.is_ascii_digit())
}
