//! What an admin port stands before.

ghost use Rattle.std.specs.Prelude.{List, Option, option_map, ℕ};
ghost use Rattle.zq_admin.specs.declared.page.Page.{Page as Pages};

use crate::page::Page;
use crate::readiness::Readiness;

/// What an admin port stands before: a site that can be asked, and told to end.
pub trait Desk {
    /// What the site gives for a page.
    ghost gives: { Self → Pages → Option (List ℕ) → Type 0 };

    /// What each request has to say, but one that asks whether the site is alive or for the page
    /// for people. With `None` nothing.
    fn token(&self) -> Option<&str>;

    /// How ready the site is.
    fn readiness(&self) -> Readiness;

    /// The text of a page. It is asked for only where a request is answered by it. `None` where the
    /// site cannot say that now, or there is no memory.
    fn show(&self, page: Page) -> Option<Vec<u8>>
        ensures { gives self.now page (option_map (λ text. text.items) result) };

    /// The site is to end: it takes no connection any more, answers what it read, and ends once its
    /// peers have what it made.
    fn stop(&self);

    /// Whether the site goes on, so that it can be asked. It is looked at twice a second at least.
    fn goes_on(&self) -> bool;
}
