//! Opening the mailboxes of sites.

ghost use Rattle.std.specs.Prelude.{IfOk, length, map, ◌*◌, ◌-◌, ◌<◌, ◌≡◌};
ghost use Rattle.zq_serve.specs.Mailboxes.{mosts_of};

use crate::fault::ServeFault;
use std::alloc::{AllocError, Global};
use zq_peers::Mailbox;
use zq_settings::{HeapCount, Settings};

/// How many messages wait in a site's mailbox at most: four rounds of what so many other sites
/// have, at most 63.
pub fn most_waiting(others: usize, heaps: HeapCount) -> usize
    requires { others < 64 }
    ensures { result ≡ 4 * others * heaps }
{
    4 * others * heaps.value() as usize
}

/// A mailbox for each of the sites where there are several.
pub fn open_mailboxes(alloc: Global, settings: &Settings) -> Result<Vec<Mailbox>, ServeFault>
    ensures { IfOk result (λ mailboxes. map (λ mailbox. mailbox.most) mailboxes.items
        ≡ mosts_of (length settings.now.ports) settings.now.heaps) }
{
    let mut mailboxes = Vec::new(alloc);
    let sites = settings.ports.as_slice().len();
    if sites > 1 {
        let most = most_waiting(sites - 1, settings.heaps);
        for _site in 0..sites {
            let mailbox = Mailbox::new(alloc, most)?;
            mailboxes.push(mailbox).map_err(AllocError::from)?;
        }
    }
    Ok(mailboxes)
}
