//! Requests that wait to be answered as one.

ghost use Rattle.std.specs.Prelude.{IsTrue, OnOk, length, ◌+◌, ◌-◌, ◌<◌, ◌≡◌, ◌≤◌};
ghost use Rattle.zq_resp.specs.Reply.{is_writable};
ghost use Rattle.zq_serve.specs.Queues.{IsAppended, IsPutOff, line_of, spoiled, weight_of};
ghost use Rattle.zq_words.specs.Words.{views};

use crate::denial::Denial;
use zq_resp::Reply;
use zq_session::Queued;
use zq_words::Refused;

/// The most requests that wait.
const MOST_QUEUED: usize = 65_536;

/// The most bytes that they weigh, or that the keys do that are watched.
pub const MOST_BYTES: usize = 16_777_216;

/// What each word weighs beside its bytes.
const WORD: usize = 24;

/// What waits at a connection.
#[derive(Drop)]
pub enum Queue {
    /// Nothing waits: each request is answered at once.
    Idle,
    /// Requests wait, which weigh so many bytes.
    Open(Vec<Queued>, usize),
    /// A request was refused that was to wait: none of them will be answered, and none is kept.
    Broken,
}

impl Queue {
    /// A request waits behind the others, and is answered QUEUED: or it is refused, since there is
    /// no room or no memory for it, and then none of them will be answered. Where that is so
    /// already it is forgotten.
    pub fn put_off(&mut self, queued: Queued, weight: usize) -> Reply
        ensures put { IsPutOff (line_of self.old) queued result (line_of self.new) }
        ensures writable { IsTrue (is_writable result) }
    {
        let added = match self {
            Queue::Open(requests, bytes) => append(requests, bytes, queued, weight),
            Queue::Idle | Queue::Broken => Ok(()),
        };
        match added {
            Ok(()) => Reply::Simple("QUEUED"),
            Err(reply) => {
                self.spoil();
                reply
            }
        }
    }

    /// None of those that wait will be answered.
    pub fn spoil(&mut self)
        ensures { line_of self.new ≡ spoiled (line_of self.old) }
    {
        if !matches!(self, Queue::Idle) {
            *self = Queue::Broken;
        }
    }
}

/// Appends a request, where there is room and memory for it.
fn append(
    requests: &mut Vec<Queued>,
    bytes: &mut usize,
    queued: Queued,
    weight: usize,
) -> Result<(), Reply>
    ensures appended { IsAppended requests.old.items queued result requests.new.items }
    ensures limits { OnOk result ((length requests.old.items < 65536)
        × (weight ≤ 16777216 - bytes.old)) }
    ensures weighed { OnOk result (bytes.new ≡ bytes.old + weight) }
{
    if requests.len() >= MOST_QUEUED || weight > MOST_BYTES.saturating_sub(*bytes) {
        return Err(Denial::TooLarge.reply());
    }
    match requests.push(queued) {
        Ok(()) => {
            *bytes = bytes.saturating_add(weight);
            Ok(())
        }
        Err(_) => Err(Refused::NoMemory.reply()),
    }
}

/// What a request of these words weighs.
pub fn weight_of(words: &[Vec<u8>]) -> usize
    ensures { result ≡ weight_of (views words.now) }
{
    let mut bytes = 0usize;
    for word in words {
        bytes = bytes.saturating_add(word.len()).saturating_add(WORD);
    }
    bytes
}
