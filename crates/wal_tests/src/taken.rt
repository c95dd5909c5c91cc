//! The bodies that were taken again, as a text.
ghost use Rattle.std.specs.Prelude.{◌≡◌, ◌++◌, ◌∷◌, [], drop};

use std::alloc::Global;
use std::test::Fail;
use zq_wal::{MemorySource, Replay, Stopped, WalError, body, read_records};

/// The bodies that were taken again, each with a comma behind it.
#[derive(Drop)]
pub struct Taken {
    pub text: Vec<u8>,
    /// How many it still takes.
    pub most: u64,
}

impl Replay for Taken {
    ghost replays = { λ old payload new.
        new.text.items ≡ (old.text.items ++ drop 8 payload) ++ 44 ∷ [] };

    ghost has_stopped = { λ t. Unit {0} };

    fn replay(&mut self, payload: &[u8]) -> Result<(), Stopped> {
        if self.most == 0 {
            return Err(Stopped);
        }
        self.most -= 1;
        if self.text.extend_from_slice(body(payload)).is_err() {
            return Err(Stopped);
        }
        match self.text.push(b',') {
            Ok(()) => Ok(()),
            Err(_) => Err(Stopped),
        }
    }
}

/// The bodies that are read of these bytes, in pieces of at most so many; or `x` where they have
/// damage that no crash leaves.
pub fn told(alloc: Global, bytes: &[u8], piece: usize) -> Result<Vec<u8>, Fail> {
    let mut source = MemorySource::new(bytes.to_vec(alloc)?, piece, u64::MAX);
    let mut taken = Taken {
        text: Vec::new(alloc),
        most: u64::MAX,
    };
    match read_records(alloc, &mut source, &mut taken) {
        Ok(_) => Ok(taken.text),
        Err(WalError::Corrupt) => Ok(Vec::from_slice(alloc, b"x")?),
        Err(_) => Err("the file is not read".into()),
    }
}
