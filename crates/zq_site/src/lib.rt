//! One site in a process of its own: its clients at a port, and links to its peers over TCP.
//!
//! Of two peers the one with the greater number dials, and dials again after a break. As a link
//! opens each side greets the other, and who is not welcome is let go. Then frames go over it, each
//! behind its length.
//!
//! Each link has a thread that reads it and one that writes it. What happens they leave at a post,
//! where the link thread takes it: it alone hears frames, and pushes to each peer what the peer
//! lacks. A reader waits while much of its peer waits at the post, a peer is pushed to only when
//! all that waited for it is written, and where there is no link nothing waits: so a peer that is
//! slow or away costs bounded memory. Who writes a link keeps it up by itself, however much the
//! link thread has to do.
#![tactic(auto)]

mod accepting;
mod administering;
mod announcing;
mod beginning;
mod begun;
mod caller;
mod dialing;
mod draining;
mod ending;
mod frame_queue;
mod front;
mod halt;
mod happening;
mod hasty;
mod heap_size;
mod heartbeat;
mod hired;
mod hiring;
mod keeping;
mod link_serving;
mod link_state;
mod loss;
mod measuring;
mod meters;
mod metrics_page;
mod note;
mod notice;
mod opening;
mod outcome;
mod parting;
mod pause;
mod peer_link;
mod peer_links;
mod peer_listener;
mod peers_shown;
mod post;
mod profile;
mod progress;
mod pushing;
mod quota;
mod reaching;
mod reading;
mod reception;
mod report;
mod run_laws;
mod run_order;
mod running;
mod serving;
mod shared;
mod sizes;
mod sizing;
mod standing;
mod standing_laws;
mod survey;
mod times;
mod traffic;
mod unreached;
mod upkeep;
mod walking;
mod walks;
mod warning;
mod warning_log;
mod why;
mod writing;

pub use ending::Ending;
pub use profile::VERSION;
pub use serving::serve_site;
