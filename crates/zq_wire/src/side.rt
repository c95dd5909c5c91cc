//! What a site says and knows as a link opens.

use crate::form::Form;
use crate::run::RUN;
use crate::versions::Versions;
use zq_dots::{Rule, SiteNo};

/// The bytes that each greeting begins with.
pub const MAGIC: [u8; 8] = *b"zq-peer\n";

/// The bytes of a nonce.
pub const NONCE: usize = 16;

/// This site, as it opens a link.
#[derive(Clone, Copy, Debug)]
pub struct Side<'a> {
    /// Its number.
    pub site: SiteNo,
    /// Its number of heaps, 16 at most.
    pub heaps: u8,
    /// Its rule of scores.
    pub rule: Rule,
    /// The sites that it expects at the other end.
    pub peers: &'a [SiteNo],
    /// What it shares with its peers; with `None` it does not ask who they are.
    pub secret: Option<Secret<'a>>,
    /// The versions that it speaks.
    pub versions: Versions,
    /// The form in which it greets: the old one only where its lowest version is 1, which it then
    /// speaks. A side that accepts greets in the form in which it is greeted.
    pub form: Form,
    /// What names its run.
    pub run: [u8; RUN],
    /// The number of its start.
    pub start: u64,
    /// Its own counter of each heap, as it was read at the start: as many as it has heaps. The
    /// first 16 are told.
    pub counters: &'a [u64],
}

/// A secret that sites share, and this link's nonce.
#[derive(Clone, Copy, Debug)]
pub struct Secret<'a> {
    /// The secret.
    pub key: &'a [u8],
    /// What this site gives its peer to answer. Each link needs a fresh one that nobody can guess.
    pub nonce: [u8; NONCE],
}
