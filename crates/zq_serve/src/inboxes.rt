//! Where the mailboxes of sites are, and what stands before the calls of a site.

ghost use Rattle.std.specs.Prelude.{option_copied, ◌≡◌};
ghost use Rattle.zq_serve.specs.Inboxes.{inbox_of};

use crate::admission::Admission;
use crate::desk::Desk;
use crate::durable::Durable;
use crate::gate::Gate;
use zq_dots::SiteNo;
use zq_metrics::Counters;
use zq_peers::Mailbox;

/// The mailboxes of the sites that a process serves.
#[derive(Clone, Copy)]
pub enum Inboxes<'a> {
    /// Site N's is at place N; a site that has none is not linked.
    Each(&'a [Mailbox]),
    /// That of the one site, the gate before its calls, which commands it answers, what counts them,
    /// what its connections answer themselves by, and what stands before its replies, where it keeps
    /// a log.
    One(&'a Mailbox, &'a Gate, &'a Admission, &'a Counters, &'a Desk, Option<Durable<'a>>),
}

impl<'a> Inboxes<'a> {
    /// The mailbox of a site of this process, where it has one.
    pub fn of(self, site: SiteNo) -> Option<&'a Mailbox>
        ensures { option_copied result ≡ inbox_of self.entry site }
    {
        match self {
            Inboxes::Each(mailboxes) => mailboxes.get(usize::from(site.value())),
            Inboxes::One(mailbox, ..) => Some(mailbox),
        }
    }

    /// The gate before the calls, where there is one.
    pub(crate) fn gate(self) -> Option<&'a Gate> {
        match self {
            Inboxes::Each(_) => None,
            Inboxes::One(_, gate, ..) => Some(gate),
        }
    }

    /// Which commands are answered, where not all are at all times.
    pub(crate) fn admission(self) -> Option<&'a Admission> {
        match self {
            Inboxes::Each(_) => None,
            Inboxes::One(_, _, admission, ..) => Some(admission),
        }
    }

    /// Whether the site has a process of its own: then requests are rewritten, and further ones on
    /// keys are answered.
    pub(crate) fn is_alone(self) -> bool {
        match self {
            Inboxes::Each(_) => false,
            Inboxes::One(..) => true,
        }
    }

    /// What counts commands, where something does.
    pub(crate) fn counters(self) -> Option<&'a Counters> {
        match self {
            Inboxes::Each(_) => None,
            Inboxes::One(_, _, _, counters, ..) => Some(counters),
        }
    }

    /// What connections answer themselves by, where they do.
    pub(crate) fn desk(self) -> Option<&'a Desk> {
        match self {
            Inboxes::Each(_) => None,
            Inboxes::One(_, _, _, _, desk, _) => Some(desk),
        }
    }

    /// What stands before replies, where the site keeps a log.
    pub(crate) fn durable(self) -> Option<Durable<'a>> {
        match self {
            Inboxes::Each(_) => None,
            Inboxes::One(.., durable) => durable,
        }
    }
}
