//! Numbers on the command line.

ghost use Rattle.std.specs.Prelude.{◌≡◌, ◌==◌, SomeIff, slice_index};
ghost use Rattle.std.specs.Str.Parse.{digits_value};
ghost use Rattle.zqueue.specs.Asked.{IsNumber};

/// Whether a plus stands first.
fn has_plus(bytes: &[u8]) -> bool
    ensures { result ≡ (slice_index bytes.now 0 == 43) }
{
    matches!(bytes, [b'+', ..])
}

/// The number that the text writes: one or more digits, and no more than `most`. A sign is refused.
pub fn read_number(text: &str, most: u64) -> Option<u64>
    ensures { SomeIff result (IsNumber text.now most) (digits_value 10 text.now) }
{
    if has_plus(text.as_bytes()) {
        return None;
    }
    match text.parse::<u64>() {
        Ok(number) if number <= most => Some(number),
        _ => None,
    }
}
