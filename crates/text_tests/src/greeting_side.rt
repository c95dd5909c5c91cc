//! Sites as they open a link.

use zq_dots::{Rule, SiteNo};
use zq_wire::{Form, NONCE, RUN, Secret, Side, VERSIONS, Versions};

/// What sites share.
pub const KEY: &[u8] = b"sixteen letters!";

/// The nonce of site 1.
pub const NONCE_1: [u8; NONCE] = [0, 1, 2, 3, 4, 5, 6, 7, 8, 9, 10, 11, 12, 13, 14, 15];

/// What site 1 greets with in the old form.
pub const PROVED_1: &[u8] =
    b"zq-peer\n\x01\x01\x04\x01\x01\x00\x01\x02\x03\x04\x05\x06\x07\x08\x09\x0a\x0b\x0c\x0d\x0e\x0f";

/// The run of site 1, its third start, and its counters then.
pub const RUN_1: [u8; RUN] = *b"run of site one.";

const COUNTERS_1: [u64; 4] = [10, 20, 30, 40];

/// The site of this number.
pub fn site(number: u8) -> Result<SiteNo, &'static str> {
    SiteNo::new(number).ok_or("a site")
}

/// A site of four heaps and the rule Low, which greets in this form.
pub fn side_in<'a>(
    form: Form,
    versions: Versions,
    own: SiteNo,
    peers: &'a [SiteNo],
    secret: Option<Secret<'a>>,
) -> Side<'a> {
    Side {
        site: own,
        heaps: 4,
        rule: Rule::Low,
        peers,
        secret,
        versions,
        form,
        run: RUN_1,
        start: 3,
        counters: &COUNTERS_1,
    }
}

/// The same in the old form, as this program speaks.
pub fn old_side<'a>(own: SiteNo, peers: &'a [SiteNo], secret: Option<Secret<'a>>) -> Side<'a> {
    side_in(Form::Old, VERSIONS, own, peers, secret)
}

/// The same in the new form.
pub fn new_side<'a>(own: SiteNo, peers: &'a [SiteNo], secret: Option<Secret<'a>>) -> Side<'a> {
    side_in(Form::New, VERSIONS, own, peers, secret)
}
