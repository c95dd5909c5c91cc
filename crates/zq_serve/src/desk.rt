//! What a site's connections are told of it that is no key's business.

ghost use Rattle.std.specs.Prelude.{ℤ, ◌≡◌};
ghost use Rattle.zq_client.specs.Clients.{begun};

use std::alloc::Global;
use std::sync::atomic::{AtomicBool, AtomicU64, Ordering};
use std::time::{Clock, Duration};
use zq_client::{ClientState, Moment, Password, Profile};
use zq_loop::PortFigures;

/// What a site tells of itself, and the numbers of its connections. Its workers share it.
#[derive(Drop)]
pub struct Desk {
    pub(crate) profile: Profile,
    started: Duration,
    given: AtomicU64,
    may_end: bool,
    is_ended: AtomicBool,
}

impl Desk {
    /// Of a site whose clients have to show this password, if there is one, which starts now: a
    /// program of this version, with so many names of commands, and these values of its settings.
    /// Where it may end, a connection that is known may have the site end.
    pub fn new<R: Clock>(
        rt: &R,
        password: Option<Password>,
        version: &'static str,
        commands: u32,
        max_memory: u64,
        timeout: u64,
        may_end: bool,
    ) -> Desk
        ensures password { result.profile.password ≡ password }
        ensures may_end { result.may_end ≡ may_end }
    {
        Desk {
            profile: Profile {
                password,
                version,
                commands,
                max_memory,
                timeout,
            },
            started: time_of(rt),
            given: AtomicU64::new(0),
            may_end,
            is_ended: AtomicBool::new(false),
        }
    }

    /// Whether a connection that is known may have the site end.
    pub(crate) fn may_end(&self) -> bool
        ensures { result ≡ self.now.may_end }
    {
        self.may_end
    }

    /// A connection has the site end.
    pub(crate) fn end(&self) {
        self.is_ended.store(true, Ordering::SeqCst);
    }

    /// Whether a connection has had the site end.
    pub fn is_ended(&self) -> bool {
        self.is_ended.load(Ordering::SeqCst)
    }

    /// A connection that begins, with a number that no other has.
    pub(crate) fn begin(&self, alloc: Global) -> ClientState
        ensures { (number : ℤ) × (result ≡ begun self.now.profile.password number) }
    {
        let before = self.given.fetch_add(1, Ordering::SeqCst);
        let number = i64::try_from(before).unwrap_or(i64::MAX);
        ClientState::new(alloc, number.saturating_add(1), &self.profile)
    }

    /// What there is to say of the site now, with these figures of its port, and so many requests
    /// answered.
    pub(crate) fn moment<R: Clock>(&self, rt: &R, figures: PortFigures, requests: u64) -> Moment {
        let time = rt.since_1970().unwrap_or(Duration::from_millis(0));
        Moment {
            time: u64::try_from(time.as_micros()).unwrap_or(u64::MAX),
            uptime: time_of(rt).saturating_sub(self.started).as_secs(),
            clients: figures.open,
            connections: figures.accepted,
            requests,
        }
    }
}

/// What the clock shows.
fn time_of<R: Clock>(rt: &R) -> Duration {
    rt.monotonic().unwrap_or(Duration::from_millis(0))
}
