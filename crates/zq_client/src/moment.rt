//! What a site counts, and the time.

/// What there is to say of a site at one moment.
#[derive(Clone, Copy, Debug)]
pub struct Moment {
    /// The microseconds since the first of January 1970, 0 o'clock UTC.
    pub time: u64,
    /// For how many seconds the site has run.
    pub uptime: u64,
    /// How many clients are connected.
    pub clients: u64,
    /// How many connections were accepted since the start.
    pub connections: u64,
    /// How many requests were answered since the start.
    pub requests: u64,
}

impl Moment {
    /// A moment of which nothing is known, for requests that ask for none.
    pub const NONE: Moment = Moment {
        time: 0,
        uptime: 0,
        clients: 0,
        connections: 0,
        requests: 0,
    };
}
