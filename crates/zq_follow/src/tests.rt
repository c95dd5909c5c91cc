//! Tests: tables for each rule, two sites that push to each other, and drawn runs of a few sites
//! whose links lose, double and reorder what goes over them.

mod drawn;
mod fences;
mod follow_rules;
mod model;
mod pair;
mod routes;
mod sets;
mod world;

use crate::SiteSet;
use zq_dots::{SiteNo, Vector};

/// A vector with these counters of the sites 0, 1 and so on.
fn vector_of(counters: &[u64]) -> Vector {
    let mut vector = Vector::new();
    let mut number = 0u8;
    for n in counters {
        raise_to(&mut vector, number, *n);
        number = number.saturating_add(1);
    }
    vector
}

/// Sets a site's counter, if there is such a site and it may have this one.
#[tactic(auto, unfolding(zq_model::specs::Sets::LAST))]
fn raise_to(vector: &mut Vector, number: u8, n: u64) {
    if n <= zq_dots::LAST_COUNTER
        && let Some(site) = SiteNo::new(number)
    {
        vector.set(site, n);
    }
}

/// The set of these sites.
fn set_of(numbers: &[u8]) -> SiteSet {
    let mut set = SiteSet::empty();
    for number in numbers {
        if let Some(site) = SiteNo::new(*number) {
            set = set.with(site);
        }
    }
    set
}
