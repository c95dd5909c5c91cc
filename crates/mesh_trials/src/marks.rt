//! A number for each site.
use zq_dots::{SITES, SiteNo, Vector};

/// A number for each site.
#[derive(Clone, Copy, Debug)]
pub struct Marks {
    numbers: [u64; SITES],
}

impl Marks {
    /// 0 for each.
    pub fn none() -> Marks {
        Marks {
            numbers: [0; SITES],
        }
    }

    /// That of a site.
    #[tactic(auto, unfolding(zq_model::specs::Sets::SITES))]
    pub fn get(&self, site: SiteNo) -> u64 {
        self.numbers[usize::from(site.value())]
    }

    /// That of a site becomes this one where it is less.
    #[tactic(auto, unfolding(zq_model::specs::Sets::SITES))]
    pub fn raise(&mut self, site: SiteNo, number: u64) {
        let mark = &mut self.numbers[usize::from(site.value())];
        *mark = (*mark).max(number);
    }

    /// Each becomes that of a vector where it is less.
    pub fn raise_all(&mut self, vector: &Vector) {
        for number in 0..SITES as u8 {
            if let Some(site) = SiteNo::new(number) {
                self.raise(site, vector.get(site));
            }
        }
    }
}
