//! Why bytes were not heard.

use zq_links::FrameFault;
use zq_node::NodeFault;

/// Why the bytes that came to a site were not heard.
#[derive(Clone, Copy, Debug, PartialEq, Eq)]
pub enum Unheard {
    /// They were not read as a frame.
    Unread(FrameFault),
    /// The node refused the frame.
    Refused(NodeFault),
}
