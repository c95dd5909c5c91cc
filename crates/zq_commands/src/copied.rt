//! Copies of the members of pairs.

ghost use Rattle.std.specs.Prelude.{IfOk, IsTrue, OnErr, OnOk, [], drop, map, ◌++◌, ◌∷◌, ◌≡◌};
ghost use Rattle.zq_commands.specs.FirstPairs.{lent_pair};
ghost use Rattle.zq_semantics.specs.Plan.{is_there};
ghost use Rattle.zq_semantics.specs.Procedures.{members_of};
ghost use Rattle.zq_words.specs.Words.{views};

use std::alloc::{AllocError, Global};

/// The members of these pairs from a place on.
pub fn copy_members(
    alloc: Global,
    pairs: &[(i128, &[u8])],
    from: usize,
) -> Result<Vec<Vec<u8>>, AllocError>
    ensures members { IfOk result (λ members. views members.items
        ≡ members_of (drop from (map lent_pair pairs.now))) }
    ensures some { OnErr result (IsTrue (is_there (drop from (map lent_pair pairs.now)))) }
{
    let mut members = Vec::new(alloc);
    for place in from..pairs.len() {
        push_member(alloc, &mut members, &pairs[place])?;
    }
    Ok(members)
}

/// Puts a copy of a pair's member behind the others.
fn push_member(
    alloc: Global,
    members: &mut Vec<Vec<u8>>,
    pair: &(i128, &[u8]),
) -> Result<(), AllocError>
    ensures members { OnOk result (views members.new.items ≡ views members.old.items
        ++ (lent_pair pair.now).1 ∷ []) }
{
    let member = Vec::from_slice(alloc, pair.1)?;
    members.push(member)?;
    Ok(())
}
