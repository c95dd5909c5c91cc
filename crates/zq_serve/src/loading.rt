//! What a command that writes is answered while a site waits for its peers. An error's text is
//! static, so there is a text for each site.

ghost use Rattle.std.specs.Prelude.{true, ◌<◌, ◌≡◌, ◌≤◌};
ghost use Rattle.zq_resp.specs.Reply.{is_on_one_line};
ghost use Rattle.zq_serve.specs.Admission.{loading_of};

use zq_dots::SiteNo;

/// The text of the error at this site.
#[tactic(auto, unfolding(zq_model::specs::Sets::SITES))]
pub(crate) fn loading_text(site: SiteNo) -> &'static str
    ensures text { result.now ≡ loading_of site }
    ensures on_one_line { is_on_one_line result.now ≡ true }
{
    let number = site.value();
    if number < 10 {
        units(number)
    } else if number < 20 {
        tens(number)
    } else if number < 30 {
        twenties(number)
    } else if number < 40 {
        thirties(number)
    } else if number < 50 {
        forties(number)
    } else if number < 60 {
        fifties(number)
    } else {
        sixties(number)
    }
}

/// Of a site of these numbers: below 10.
fn units(number: u8) -> &'static str
    requires high { number < 10 }
    ensures text { result.now ≡ loading_of number }
    ensures on_one_line { is_on_one_line result.now ≡ true }
{
    match number {
        0 => "LOADING site 0 waits for its peers",
        1 => "LOADING site 1 waits for its peers",
        2 => "LOADING site 2 waits for its peers",
        3 => "LOADING site 3 waits for its peers",
        4 => "LOADING site 4 waits for its peers",
        5 => "LOADING site 5 waits for its peers",
        6 => "LOADING site 6 waits for its peers",
        7 => "LOADING site 7 waits for its peers",
        8 => "LOADING site 8 waits for its peers",
        9 => "LOADING site 9 waits for its peers",
        _ => unreachable!(),
    }
}

/// Of a site of these numbers: from 10 to 19.
fn tens(number: u8) -> &'static str
    requires low { 10 ≤ number }
    requires high { number < 20 }
    ensures text { result.now ≡ loading_of number }
    ensures on_one_line { is_on_one_line result.now ≡ true }
{
    match number {
        10 => "LOADING site 10 waits for its peers",
        11 => "LOADING site 11 waits for its peers",
        12 => "LOADING site 12 waits for its peers",
        13 => "LOADING site 13 waits for its peers",
        14 => "LOADING site 14 waits for its peers",
        15 => "LOADING site 15 waits for its peers",
        16 => "LOADING site 16 waits for its peers",
        17 => "LOADING site 17 waits for its peers",
        18 => "LOADING site 18 waits for its peers",
        19 => "LOADING site 19 waits for its peers",
        _ => unreachable!(),
    }
}

/// Of a site of these numbers: from 20 to 29.
fn twenties(number: u8) -> &'static str
    requires low { 20 ≤ number }
    requires high { number < 30 }
    ensures text { result.now ≡ loading_of number }
    ensures on_one_line { is_on_one_line result.now ≡ true }
{
    match number {
        20 => "LOADING site 20 waits for its peers",
        21 => "LOADING site 21 waits for its peers",
        22 => "LOADING site 22 waits for its peers",
        23 => "LOADING site 23 waits for its peers",
        24 => "LOADING site 24 waits for its peers",
        25 => "LOADING site 25 waits for its peers",
        26 => "LOADING site 26 waits for its peers",
        27 => "LOADING site 27 waits for its peers",
        28 => "LOADING site 28 waits for its peers",
        29 => "LOADING site 29 waits for its peers",
        _ => unreachable!(),
    }
}

/// Of a site of these numbers: from 30 to 39.
fn thirties(number: u8) -> &'static str
    requires low { 30 ≤ number }
    requires high { number < 40 }
    ensures text { result.now ≡ loading_of number }
    ensures on_one_line { is_on_one_line result.now ≡ true }
{
    match number {
        30 => "LOADING site 30 waits for its peers",
        31 => "LOADING site 31 waits for its peers",
        32 => "LOADING site 32 waits for its peers",
        33 => "LOADING site 33 waits for its peers",
        34 => "LOADING site 34 waits for its peers",
        35 => "LOADING site 35 waits for its peers",
        36 => "LOADING site 36 waits for its peers",
        37 => "LOADING site 37 waits for its peers",
        38 => "LOADING site 38 waits for its peers",
        39 => "LOADING site 39 waits for its peers",
        _ => unreachable!(),
    }
}

/// Of a site of these numbers: from 40 to 49.
fn forties(number: u8) -> &'static str
    requires low { 40 ≤ number }
    requires high { number < 50 }
    ensures text { result.now ≡ loading_of number }
    ensures on_one_line { is_on_one_line result.now ≡ true }
{
    match number {
        40 => "LOADING site 40 waits for its peers",
        41 => "LOADING site 41 waits for its peers",
        42 => "LOADING site 42 waits for its peers",
        43 => "LOADING site 43 waits for its peers",
        44 => "LOADING site 44 waits for its peers",
        45 => "LOADING site 45 waits for its peers",
        46 => "LOADING site 46 waits for its peers",
        47 => "LOADING site 47 waits for its peers",
        48 => "LOADING site 48 waits for its peers",
        49 => "LOADING site 49 waits for its peers",
        _ => unreachable!(),
    }
}

/// Of a site of these numbers: from 50 to 59.
fn fifties(number: u8) -> &'static str
    requires low { 50 ≤ number }
    requires high { number < 60 }
    ensures text { result.now ≡ loading_of number }
    ensures on_one_line { is_on_one_line result.now ≡ true }
{
    match number {
        50 => "LOADING site 50 waits for its peers",
        51 => "LOADING site 51 waits for its peers",
        52 => "LOADING site 52 waits for its peers",
        53 => "LOADING site 53 waits for its peers",
        54 => "LOADING site 54 waits for its peers",
        55 => "LOADING site 55 waits for its peers",
        56 => "LOADING site 56 waits for its peers",
        57 => "LOADING site 57 waits for its peers",
        58 => "LOADING site 58 waits for its peers",
        59 => "LOADING site 59 waits for its peers",
        _ => unreachable!(),
    }
}

/// Of a site of these numbers: 60 to 63.
fn sixties(number: u8) -> &'static str
    requires low { 60 ≤ number }
    requires high { number < 64 }
    ensures text { result.now ≡ loading_of number }
    ensures on_one_line { is_on_one_line result.now ≡ true }
{
    match number {
        60 => "LOADING site 60 waits for its peers",
        61 => "LOADING site 61 waits for its peers",
        62 => "LOADING site 62 waits for its peers",
        63 => "LOADING site 63 waits for its peers",
        _ => unreachable!(),
    }
}
