//! A connection that is served in turn with others.

ghost use Rattle.std.specs.Prelude.{◌≡◌, ◌≤◌, ◌↔◌, ◌++◌, IsTrue, List, OnErr, OnOk, length, true, ℕ};
ghost use Rattle.zq_session.specs.Among.{AnyRequest, Meanwhile};
ghost use Rattle.zq_session.specs.Answering.{IsFew};
ghost use Rattle.zq_session.specs.Connection.{CanGoOn, Closes, HasBroken, IsAlong, IsNew, IsOver, IsRefusedFor, IsTaken, IsWritten, MOST, WantsToRead, owed_of};

use crate::answering::answer_some;
use crate::serving::{Answers, Served};
use std::alloc::{AllocError, Global};
use std::marker::Model;
use std::mem;
use zq_resp::Reader;

// While so many bytes of replies are kept no request is answered.
const MOST_KEPT: usize = 65_536;

// As much memory for replies is kept while none wait.
const SPARE: usize = 1_024;

/// A connection: what it brought of a request that is not whole, what came and waits, and the bytes
/// of the replies that it is owed, of which the first are written.
///
/// What it brings is heard, and the replies to the requests that end there are owed. While 65,536
/// bytes of replies are kept no request is answered, and what came waits; and while something waits
/// nothing more is heard. So at most 65,536 bytes and one reply are owed, and at most as many bytes
/// wait as were heard at once.
#[derive(Drop)]
pub struct Connection {
    reader: Reader,
    waiting: Vec<u8>,
    replies: Vec<u8>,
    sent: usize,
    is_closed: bool,
}

impl Model for Connection {
    ghost use Rattle.std.specs.Prelude.{◌≤◌, length};
    ghost use Rattle.zq_session.specs.Connection.{ConnectionState};

    ghost Value = { ConnectionState };

    ghost view = { λ c. record {
      unfinished = c.reader;
      waiting = c.waiting.items;
      replies = c.replies.items;
      sent = c.sent;
      is_closed = c.is_closed;
    } };

    ghost invariant = { λ c. (c.sent ≤ length c.replies.items)
        × (length c.waiting.items ≤ 65536) };
}

impl Connection {
    /// A connection that brought nothing. It takes no memory.
    pub fn new(alloc: Global) -> Connection
        ensures { IsNew result }
    {
        Connection {
            reader: Reader::new(),
            waiting: Vec::new(alloc),
            replies: Vec::new(alloc),
            sent: 0,
            is_closed: false,
        }
    }

    /// Whether more may be heard: nothing that came waits, and fewer than 65,536 bytes of replies
    /// are kept.
    pub fn wants_to_read(&self) -> bool
        ensures { IsTrue result ↔ WantsToRead self.now }
    {
        !self.is_closed && self.waiting.is_empty() && self.replies.len() < MOST_KEPT
    }

    /// Whether something that came waits, and may be heard.
    pub fn can_go_on(&self) -> bool
        ensures { IsTrue result ↔ CanGoOn self.now }
    {
        !self.is_closed && !self.waiting.is_empty() && self.replies.len() < MOST_KEPT
    }

    /// Whether nothing more comes of it: nothing more is heard, and nothing is owed.
    pub fn is_over(&self) -> bool
        ensures { IsTrue result ↔ IsOver self.now }
    {
        self.is_closed && self.owed().is_empty()
    }

    /// Whether nothing more is heard.
    pub fn is_closed(&self) -> bool
        ensures { result ≡ self.now.is_closed }
    {
        self.is_closed
    }

    /// The bytes that are to be written.
    pub fn owed(&self) -> &[u8]
        ensures { result.now ≡ owed_of self.now }
    {
        &self.replies[self.sent..]
    }

    /// So many of the bytes that are owed were written.
    pub fn wrote(&mut self, alloc: Global, count: usize)
        requires { count ≤ length (owed_of self.old) }
        ensures { IsWritten self.old count self.new }
    {
        if count < self.replies.len() - self.sent {
            self.sent += count;
            return;
        }
        self.sent = 0;
        if self.replies.capacity() <= SPARE {
            self.replies.clear();
        } else {
            self.replies = Vec::new(alloc);
        }
    }

    /// Hears a piece of what the connection brings, of at most 65,536 bytes: answers the requests
    /// that end in it, and owes the replies. Where these come to 65,536 bytes or more, the rest of
    /// the piece waits. After bytes that begin no request, or a request past the limits, the error
    /// for that is owed, and the connection is closed. With `Ok` it is closed for nothing else.
    ///
    /// - `Err`: there was no memory, for a reply, a request or what would wait. The replies to the
    ///   first of the requests are owed, but for at most one that was made, and the connection is
    ///   closed. The rest of the piece is lost.
    pub fn hear<A: Answers>(
        &mut self,
        alloc: Global,
        answerer: &mut A,
        piece: &[u8],
    ) -> Result<(), AllocError>
        requires wants { WantsToRead self.old }
        requires one_read { length piece.now ≤ 65536 }
        ensures along { (begun : A) (text written : List ℕ) →
            IsAlong A.others A.answers begun answerer.old text written self.old →
            IsAlong A.others A.answers begun answerer.new (text ++ piece.now) written self.new }
        ensures requests { (begun : A) (text written : List ℕ) →
            IsAlong A.others A.answers begun answerer.old text written self.old →
            Meanwhile (AnyRequest A.answers) answerer.old answerer.new }
        ensures few { IsFew MOST self.new.replies }
        ensures taken { OnOk result (IsTaken piece.now self.new) }
        ensures broken { (begun : A) (text written : List ℕ) →
            IsAlong A.others A.answers begun answerer.old text written self.old →
            OnOk result (self.new.is_closed ≡ true →
            HasBroken A.others A.answers begun answerer.new (text ++ piece.now) written self.new) }
        ensures lost { OnErr result (self.new.is_closed ≡ true) }
        ensures short { (begun : A) (text written : List ℕ) →
            IsAlong A.others A.answers begun answerer.old text written self.old →
            OnErr result (IsRefusedFor A.answers answerer.new piece.now self.new) }
    {
        let answered = answer_some(
            alloc,
            answerer,
            &mut self.reader,
            piece,
            &mut self.replies,
            MOST_KEPT,
        );
        let Ok(answered) = answered else {
            self.is_closed = true;
            return Err(AllocError);
        };
        if is_broken(answered.served) {
            self.is_closed = true;
            return Ok(());
        }
        match self.waiting.extend_from_slice(&piece[answered.taken..]) {
            Ok(()) => Ok(()),
            Err(_) => {
                self.is_closed = true;
                Err(AllocError)
            }
        }
    }

    /// Hears what came and waits, as [`Connection::hear`] does.
    pub fn go_on<A: Answers>(&mut self, alloc: Global, answerer: &mut A) -> Result<(), AllocError>
        requires { CanGoOn self.old }
        ensures along { (begun : A) (text written : List ℕ) →
            IsAlong A.others A.answers begun answerer.old text written self.old →
            IsAlong A.others A.answers begun answerer.new text written self.new }
        ensures requests { (begun : A) (text written : List ℕ) →
            IsAlong A.others A.answers begun answerer.old text written self.old →
            Meanwhile (AnyRequest A.answers) answerer.old answerer.new }
        ensures few { IsFew MOST self.new.replies }
        ensures taken { OnOk result (IsTaken self.old.waiting self.new) }
        ensures broken { (begun : A) (text written : List ℕ) →
            IsAlong A.others A.answers begun answerer.old text written self.old →
            OnOk result (self.new.is_closed ≡ true →
            HasBroken A.others A.answers begun answerer.new text written self.new) }
        ensures lost { OnErr result (self.new.is_closed ≡ true) }
        ensures short { (begun : A) (text written : List ℕ) →
            IsAlong A.others A.answers begun answerer.old text written self.old →
            OnErr result (IsRefusedFor A.answers answerer.new self.old.waiting self.new) }
    {
        let piece = mem::replace(&mut self.waiting, Vec::new(alloc));
        self.hear(alloc, answerer, &piece)
    }

    /// Hears nothing more. What is owed is still to be written.
    pub fn close(&mut self)
        ensures { Closes self.old self.new }
    {
        // What is owed stays.
        self.is_closed = true;
    }
}

/// Whether the input broke the protocol.
fn is_broken(served: Served) -> bool
    ensures { IsTrue result ↔ (served ≡ Served.Broken) }
{
    match served {
        Served::More => false,
        Served::Broken => true,
    }
}
