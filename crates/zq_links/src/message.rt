//! What link threads are sent.

use zq_dots::SiteNo;

/// What a link's thread is sent.
#[derive(Debug, Drop)]
pub enum Message {
    /// A frame that came over the link to a site.
    Frame {
        /// The site at the other end.
        from: SiteNo,
        /// The frame's bytes.
        bytes: Vec<u8>,
    },
    /// It is time to tell the other sites what this one has.
    Tick,
    /// Nothing more comes.
    Stop,
}
