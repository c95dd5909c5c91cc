//! Heaps that take the place of those of a node's site.
ghost use Rattle.std.specs.Prelude.{◌≡◌, ◌≢◌, ◌↔◌, IsErrOf, OnErr, OnOk, true};
ghost use Rattle.zq_dots.specs.Rule.{rule_of};
ghost use Rattle.zq_model.specs.Sets.{covers};
ghost use Rattle.zq_node.specs.Calls.{IsCalled, MadeNoStep, TookOver};
ghost use Rattle.zq_node.specs.Node.{IsNode, IsSameHome, parked_of, pass_of, site_of};
ghost use Rattle.zq_spread.specs.Calls.{HasSeenBook, heaps_of};

use crate::node::Node;
use std::sync::Wait;
use zq_journal::TakeOverFault;
use zq_shard::Shard;

impl Node<'_> {
    /// Exchanges a heap of the site for another one, which has all that it has, and leaves there the
    /// heap that it had, as [`zq_spread::Site::take_over`] says. What is parked stays so:
    /// [`Node::settle_all`] tries it.
    ///
    /// `WrongHeap` where the number of heaps is another, else `WrongRule` where the rule is, else
    /// `Worn` where a lock, the stamp or the count of the heap's book is at its last value, or
    /// `Lacks` where the other heap lacks some of what the site's has. After each it has made no
    /// step, and the other heap is as it was.
    pub fn take_over<R: Wait>(&mut self, rt: &R, other: &mut Shard) -> Result<(), TakeOverFault>
        requires node { IsNode self.old }
        ensures node { IsNode self.new }
        ensures home { IsSameHome self.old self.new }
        ensures parked { parked_of self.new ≡ parked_of self.old }
        ensures over { OnOk result (IsCalled (site_of self.old) (pass_of self.old)
            (pass_of self.new) (TookOver other.old)) }
        ensures covered { OnOk result (HasSeenBook (pass_of self.new) other.old.heap
            (λ b. covers b.state.vector other.old.image.vector ≡ true)) }
        ensures no_step { OnErr result (MadeNoStep (pass_of self.old) (pass_of self.new)) }
        ensures wrong_heap { IsErrOf result TakeOverFault.WrongHeap
            ↔ (other.old.heaps ≢ heaps_of (site_of self.old)) }
        ensures wrong_rule { IsErrOf result TakeOverFault.WrongRule
            ↔ ((other.old.heaps ≡ heaps_of (site_of self.old))
            × (other.old.rule ≢ rule_of (site_of self.old).rule)) }
        ensures kept { OnErr result (other.new ≡ other.old) }
    {
        self.home.site.take_over(rt, &mut self.pass, other)
    }
}
