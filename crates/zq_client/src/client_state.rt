//! What a connection has of its own.

ghost use Rattle.std.specs.Prelude.{◌≡◌};
ghost use Rattle.zq_client.specs.Clients as client;
ghost use Rattle.zq_client.specs.Clients.{begun, known, named};

use crate::profile::Profile;
use std::alloc::Global;
use std::marker::Model;

/// As many wrong passwords end a connection.
const MOST_WRONG: u8 = 10;

/// What a connection has of its own: its number, its name, whether it is known, and whether it
/// ends. One that need not show a password is known from the beginning.
#[derive(Debug, Drop)]
pub struct ClientState {
    number: i64,
    is_known: bool,
    name: Vec<u8>,
    left: u8,
    is_over: bool,
}

impl Model for ClientState {
    ghost use Rattle.zq_client.specs.Clients.{Client};

    ghost Value = { Client };

    ghost view = { λ c. record {
      number = c.number;
      is_known = c.is_known;
      name = c.name.items;
      left = c.left;
      is_over = c.is_over;
    } };
}

impl ClientState {
    /// A connection that begins, with a number of its own. It takes no memory.
    pub fn new(alloc: Global, number: i64, profile: &Profile) -> ClientState
        ensures { result ≡ begun profile.now.password number }
    {
        ClientState {
            number,
            is_known: profile.password.is_none(),
            name: Vec::new(alloc),
            left: MOST_WRONG,
            is_over: false,
        }
    }

    /// Its number.
    pub fn number(&self) -> i64
        ensures { result ≡ self.now.number }
    {
        self.number
    }

    /// Its name, which is empty where it has none.
    pub fn name(&self) -> &[u8]
        ensures { result.now ≡ self.now.name }
    {
        &self.name
    }

    /// Whether it has shown the password, or need not.
    pub fn is_known(&self) -> bool
        ensures { result ≡ self.now.is_known }
    {
        self.is_known
    }

    /// Whether it ends once what it is owed is written: nothing that it asks is carried out any
    /// more.
    pub fn is_over(&self) -> bool
        ensures { result ≡ self.now.is_over }
    {
        self.is_over
    }

    /// It has shown the password.
    pub(crate) fn know(&mut self)
        ensures { self.new ≡ known self.old }
    {
        self.is_known = true;
    }

    /// It showed a wrong password.
    pub(crate) fn miss(&mut self)
        ensures { self.new ≡ client.missed self.old }
    {
        self.left = self.left.saturating_sub(1);
        if self.left == 0 {
            self.is_known = false;
            self.is_over = true;
        }
    }

    /// It has this name from now on.
    pub(crate) fn call(&mut self, name: Vec<u8>)
        ensures { self.new ≡ named name.items self.old }
    {
        self.name = name;
    }

    /// It is as it began, but for the wrong passwords that it has shown.
    pub(crate) fn begin(&mut self, profile: &Profile)
        ensures { self.new ≡ client.again profile.now.password self.old }
    {
        self.is_known = profile.password.is_none();
        self.name.clear();
    }

    /// It ends.
    pub(crate) fn end(&mut self)
        ensures { self.new ≡ client.ended self.old }
    {
        self.is_known = false;
        self.is_over = true;
    }
}
