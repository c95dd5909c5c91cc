//! From one form of the members of a key to the other. Each is made of copies beside the one that
//! stands, so that nothing changes where memory is refused.

ghost use Rattle.std.specs.Prelude.{IfOk, OnOk, [], length, ◌≡◌};
ghost use Rattle.std.specs.FinMap.{empty, len as map_len};
ghost use Rattle.zq_dots.specs.Rule.{rule_of};
ghost use Rattle.zq_queue.specs.Few.{AreApart, AreFew, entries_by, names_in};
ghost use Rattle.zq_queue.specs.Queued.{AreScored, entries_of};

use crate::few::Member;
use crate::indexed::Indexed;
use std::alloc::{AllocError, Global};
use zq_dots::Rule;
use zq_entry::Entry;
use zq_posheap::{Name, Seeded};

/// The large form of these members, in their order, with room for so many more.
pub(crate) fn large(
    alloc: Global,
    list: &[Member],
    rule: Rule,
    hasher: Seeded,
    additional: usize,
) -> Result<Box<Indexed>, AllocError>
    requires few { AreFew list.now }
    ensures scored { IfOk result (λ many. AreScored (rule_of rule) many.value.held) }
    ensures entries { IfOk result (λ many. entries_of many.value.held ≡ entries_by list.now) }
    ensures places { IfOk result (λ many. many.value.places ≡ names_in list.now) }
{
    let mut many = Indexed::with_hasher(alloc, hasher);
    many.reserve(list.len().saturating_add(additional))?;
    add_copies(alloc, list, rule, &mut many)?;
    let many = Box::new(alloc, many)?;
    Ok(many)
}

/// Adds copies of these members, in their order, where there are none.
fn add_copies(
    alloc: Global,
    list: &[Member],
    rule: Rule,
    many: &mut Indexed,
) -> Result<(), AllocError>
    requires few { AreFew list.now }
    requires empty { many.old.held ≡ empty }
    requires no_places { many.old.places ≡ [] }
    ensures scored { OnOk result (AreScored (rule_of rule) many.new.held) }
    ensures entries { OnOk result (entries_of many.new.held ≡ entries_by list.now) }
    ensures places { OnOk result (many.new.places ≡ names_in list.now) }
{
    for member in list {
        if let Some(score) = member.entry.score(rule) {
            many.insert(member.name.as_slice(), score, member.entry.copy(alloc)?)?;
        }
    }
    Ok(())
}

/// The list of these members, in their order, with room for two more: what is taken out is often
/// given back.
pub(crate) fn small(alloc: Global, many: &Indexed) -> Result<Vec<Member>, AllocError>
    ensures apart { IfOk result (λ list. AreApart list.items) }
    ensures entries { IfOk result (λ list. entries_by list.items ≡ entries_of many.now.held) }
    ensures len { IfOk result (λ list. length list.items ≡ map_len many.now.held) }
    ensures places { IfOk result (λ list. names_in list.items ≡ many.now.places) }
{
    let mut list = Vec::with_capacity(alloc, many.len() + 2)?;
    for ((_, member), entry) in many.iter() {
        let name = Name::copied(alloc, member)?;
        let entry = entry.copy(alloc)?;
        list.push(Member { name, entry })?;
    }
    Ok(list)
}
