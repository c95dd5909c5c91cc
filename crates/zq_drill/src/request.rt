//! The request that a caller's words make.

ghost use Rattle.std.specs.Fmt.{signed_decimal};
ghost use Rattle.std.specs.Prelude.{◌≡◌, ◌≤◌, ◌∷◌, [], IfOk, codes, length, map};
ghost use Rattle.zq_resp.specs.Request.{IsRequest};
ghost use Rattle.zq_drill.specs.Requests.{amount_of, member_of, request_of};

use crate::draws::Draw;
use itoa::Buffer;
use std::alloc::{AllocError, Global};
use zq_resp::Request;

impl Draw {
    /// The digits of the score or the increment, -100 to 100.
    fn amount(&self, alloc: Global) -> Result<Vec<u8>, AllocError>
        ensures text { IfOk result
            (λ text. text.items ≡ signed_decimal (amount_of self.now.amount)) }
        ensures short { IfOk result (λ text. length text.items ≤ 40) }
    {
        let amount = i64::from(self.amount % 201) - 100;
        Vec::from_slice(alloc, Buffer::new().format(amount).as_bytes())
    }

    /// The member, `m0` to `m15`.
    fn member(&self, alloc: Global) -> Result<Vec<u8>, AllocError>
        ensures member { IfOk result (λ member. member.items ≡ member_of self.now.member) }
        ensures short { IfOk result (λ member. length member.items ≤ 41) }
    {
        let mut member = Vec::from_slice(alloc, b"m")?;
        member.extend_from_slice(Buffer::new().format(self.member % 16).as_bytes())?;
        Ok(member)
    }

    /// The words of a command of this name that has a score or an increment.
    fn with_amount(&self, alloc: Global, name: &[u8]) -> Result<Vec<Vec<u8>>, AllocError>
        requires { length name.now ≤ 8 }
        ensures words { IfOk result
            (λ words. map (λ w. w.items) words.items ≡ name.now ∷ codes "q"
            ∷ signed_decimal (amount_of self.now.amount) ∷ member_of self.now.member ∷ []) }
        ensures request { IfOk result (λ words. IsRequest (map (λ w. w.items) words.items)) }
    {
        let mut words = named(alloc, name)?;
        words.push(self.amount(alloc)?)?;
        words.push(self.member(alloc)?)?;
        Ok(words)
    }

    /// The words of a command of this name that has a member alone.
    fn with_member(&self, alloc: Global, name: &[u8]) -> Result<Vec<Vec<u8>>, AllocError>
        requires { length name.now ≤ 8 }
        ensures words { IfOk result
            (λ words. map (λ w. w.items) words.items ≡ name.now ∷ codes "q"
            ∷ member_of self.now.member ∷ []) }
        ensures request { IfOk result (λ words. IsRequest (map (λ w. w.items) words.items)) }
    {
        let mut words = named(alloc, name)?;
        words.push(self.member(alloc)?)?;
        Ok(words)
    }

    /// The request of the round, on the key `q`: ZADD, ZINCRBY, ZREM or ZPOPNEAR.
    pub fn request(&self, alloc: Global) -> Result<Request, AllocError>
        ensures { IfOk result (λ request. request ≡ request_of self.now) }
    {
        let words = match self.verb % 4 {
            0 => self.with_amount(alloc, b"ZADD")?,
            1 => self.with_amount(alloc, b"ZINCRBY")?,
            2 => self.with_member(alloc, b"ZREM")?,
            _ => named(alloc, b"ZPOPNEAR")?,
        };
        Ok(Request::new(words))
    }
}

/// A command's name, and the key.
fn named(alloc: Global, name: &[u8]) -> Result<Vec<Vec<u8>>, AllocError>
    requires { length name.now ≤ 8 }
    ensures words { IfOk result (λ words. map (λ w. w.items) words.items
        ≡ name.now ∷ codes "q" ∷ []) }
    ensures request { IfOk result (λ words. IsRequest (map (λ w. w.items) words.items)) }
{
    let mut words = Vec::new(alloc);
    words.push(Vec::from_slice(alloc, name)?)?;
    words.push(Vec::from_slice(alloc, b"q")?)?;
    Ok(words)
}
