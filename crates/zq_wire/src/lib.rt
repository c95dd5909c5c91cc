//! A connection between two sites: how it is opened, how frames stand in its stream of bytes, and
//! what waits to be sent.
//!
//! **Opening.** Each site greets the other, and where they share a secret each proves to the other
//! that it knows it. A greeting has one of two forms:
//!
//! | bytes | old form | new form |
//! |---|---|---|
//! | 8 | the magic word | the magic word |
//! | 1 | 1, the version | 0 |
//! | 2 | | the lowest and the highest version |
//! | 3 | the site's number, its number of heaps, its rule | the same |
//! | 16 | | what names its run |
//! | 8 | | the number of its start |
//! | 8 for each heap | | its own counter of the heap, as it was read at the start |
//! | 1 | whether it has a secret | the same |
//! | 16, with a secret | a nonce, drawn afresh for each connection | the same |
//!
//! The old form is the range 1 to 1 and tells of no run. Both sites take the greatest version that
//! both speak. The site that dials greets first (`dial_over`); the one that accepts hears in which
//! form it is greeted, and greets in that form (`accept_over`). A site that greeted in the new form
//! and hears the old one was refused by a program that knows no other: it ends the link and says so
//! by `Unopened::Old`.
//!
//! To a greeting that agrees a site with a secret answers by the tag of the version that is spoken,
//! its own number, the peer's, its own nonce, the peer's and, in the new form, its own greeting and
//! the peer's, both whole, in this order. So nobody between two sites that greet in the new form
//! can lower the version, or change what is told of a run. The tag is HMAC-SHA-256, as RFC 2104
//! defines it over SHA-256; two tags are compared by a function that looks at all their bytes,
//! whatever they are. The two sites have different numbers, so the answer that one owes is never
//! the one that the other owes, and a peer gains nothing by sending back what it was sent. The old
//! form covers no versions: who stands between two sites can have them speak version 1 wherever
//! both speak it and the one that dials greets in the old form after `Unopened::Old`.
//!
//! `hear_opening` says of all bytes that were heard whether more have to come, an answer is due, or
//! the peer is welcome, and it refuses a peer by the first thing that does not agree. What it has
//! said of a peer is not changed by bytes that follow.
//!
//! **Frames in a stream.** Each frame stands behind its length, a number of four bytes, the highest
//! first. A reader is fed the stream in pieces, cut anywhere, and hands out the frames. A length
//! above the most that the reader allows is a fault, after which it gives nothing. No memory is
//! taken for a length: it is taken for bytes that have come.
//!
//! **What waits to be sent** stays in bounded memory however slowly the peer reads. Of each heap
//! there waits at most one Have, and at most one answer to a Have of the peer's. A newer one takes
//! the place of the older: a newer Have says all that the older said, and a newer answer is made
//! for a newer Have of the peer, so that what the older would have brought and the peer still lacks
//! is in the newer, or is brought by the answer to the peer's next Have.
#![tactic(auto)]

mod answer;
mod compare;
mod fault;
mod form;
mod framing;
mod front;
mod greeting;
mod greeting_laws;
mod hmac;
mod link;
mod mark;
mod met;
mod nonce;
mod opening;
mod outbox;
pub mod outbox_laws;
mod parcel;
mod peer;
mod range;
mod reader;
mod refusal;
mod run;
mod run_told;
mod side;
mod stop;
pub mod stream_laws;
mod topic;
mod unfinished;
mod versions;

pub use compare::is_same_tag;
pub use fault::{StreamError, StreamFault};
pub use form::Form;
pub use framing::write_framed;
pub use greeting::write_greeting;
pub use greeting_laws::{
    answers_differ, changed_is_refused, decided_stays, runs_are_told, welcome_exactly,
};
pub use hmac::mac;
pub use link::{Opened, Unopened, accept_over, dial_over};
pub use opening::{Opening, hear_opening};
pub use outbox::Outbox;
pub use parcel::Parcel;
pub use reader::Reader;
pub use refusal::Refusal;
pub use run::{MOST_HEAPS, RUN, Run};
pub use side::{MAGIC, NONCE, Secret, Side};
pub use topic::Topic;
pub use versions::{VERSIONS, Versions};
