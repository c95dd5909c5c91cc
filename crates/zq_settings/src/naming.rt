//! The names of hosts, and the ports behind them, from texts.

ghost use Rattle.std.specs.Char.{is_ascii_digit};
ghost use Rattle.std.specs.List.{list_all, take_while};
ghost use Rattle.std.specs.Prelude.{◌≡◌, ◌==◌, ◌≤◌, length, not, option_map, pos, reverse};
ghost use Rattle.zq_settings.specs.Hosts.{are_labels as are_labels_in, dot, has_hyphen_end as has_hyphen_end_in, is_host as is_host_in, is_label as is_label_in, is_localhost as is_localhost_in, is_name_byte as is_name_byte_in, labels_of, last_label as last_label_in, named_in, port_in};
ghost use Rattle.zq_settings.specs.Numbers.{within};

use crate::ports::Port;

/// The most bytes of a name.
const MOST_NAME: usize = 253;

/// The most bytes of a label.
const MOST_LABEL: usize = 63;

/// The name and the port of a text that writes them with a colon between.
pub fn named_of(text: &str) -> Option<(&str, Port)>
    ensures { option_map (λ named. (named.0.now, named.1)) result ≡ named_in text.now }
{
    let (name, digits) = text.split_once(':')?;
    if !is_host(name) {
        return None;
    }
    let port = port_of(digits)?;
    Some((name, port))
}

/// The port that a text of decimal digits writes.
fn port_of(digits: &str) -> Option<Port>
    ensures { result ≡ port_in digits.now }
{
    if !are_digits(digits.as_bytes()) {
        return None;
    }
    let number = digits.parse::<u16>().ok()?;
    port_numbered(number)
}

/// The port of this number, which is not 0.
fn port_numbered(number: u16) -> Option<Port>
    ensures { result ≡ within 1 65535 (pos number) }
{
    Port::new(i64::from(number))
}

/// Whether the text is the name of a host.
fn is_host(name: &str) -> bool
    ensures { result ≡ is_host_in name.now }
{
    let bytes = name.as_bytes();
    bytes.len() <= MOST_NAME && are_labels(bytes) && !are_digits(last_label(bytes))
}

/// Whether what stands between the dots are labels.
fn are_labels(name: &[u8]) -> bool
    ensures { result ≡ are_labels_in (labels_of name.now) }
{
    name.split(|byte| *byte == b'.')
        .all(|label| is_label(label))
}

/// Whether it is a label.
fn is_label(label: &[u8]) -> bool
    ensures { result ≡ is_label_in label.now }
{
    1 <= label.len() && label.len() <= MOST_LABEL && are_name_bytes(label) && !has_hyphen_end(label)
}

/// Whether a hyphen stands first or last.
fn has_hyphen_end(label: &[u8]) -> bool
    requires { 1 ≤ length label.now }
    ensures { result ≡ has_hyphen_end_in label.now }
{
    label[0] == b'-' || label[label.len() - 1] == b'-'
}

/// Whether a label may have all these bytes.
fn are_name_bytes(bytes: &[u8]) -> bool
    ensures { result ≡ list_all is_name_byte_in bytes.now }
{
    bytes.iter().all(|byte| is_name_byte(*byte))
}

/// Whether a label may have this byte.
fn is_name_byte(byte: u8) -> bool
    ensures { result ≡ is_name_byte_in byte }
{
    byte.is_ascii_alphanumeric() || byte == b'-' || byte == b'_'
}

/// What stands behind the last dot, or all where there is none.
#[tactic(auto, using(crate::proofs::NamesRead::behind_last))]
fn last_label(name: &[u8]) -> &[u8]
    ensures { result.now ≡ last_label_in name.now }
{
    &name[name.len() - bytes_behind(name)..]
}

/// How many bytes stand behind the last dot.
fn bytes_behind(name: &[u8]) -> usize
    ensures count { result ≡ length
        (take_while (λ byte. not (byte == dot)) (reverse name.now)) }
    ensures within { result ≤ length name.now }
{
    name.iter().rev().take_while(|byte| **byte != b'.').count()
}

/// Whether all are digits.
fn are_digits(bytes: &[u8]) -> bool
    ensures { result ≡ list_all is_ascii_digit bytes.now }
{
    bytes.iter().all(|byte| byte.is_ascii_digit())
}

/// Whether the name is `localhost`.
pub fn is_localhost(name: &str) -> bool
    ensures { result ≡ is_localhost_in name.now }
{
    name.eq_ignore_ascii_case("localhost")
}
