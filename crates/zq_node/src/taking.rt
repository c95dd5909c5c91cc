//! How operations are heard.
ghost use Rattle.std.specs.Prelude.{◌≡◌, ◌<◌, ◌∷◌, IfErr, IfOk, IsErrOf, OnErr, OnOk, Some, [], length};
ghost use Rattle.zq_dots.specs.Placed.{Placed};
ghost use Rattle.zq_model.specs.Sets.{IsIn};
ghost use Rattle.zq_node.specs.Calls.{HadNoRoom, IsCalled, MadeNoStep, Took, WasAtLast};
ghost use Rattle.zq_node.specs.Hearing.{AreOpsHeard, AreOpsStopped, IsStopOf};
ghost use Rattle.zq_node.specs.Node.{IsNode, IsSameHome, parked_of, pass_of, site_of};
ghost use Rattle.zq_node.specs.Parked.{HasPlaceOf, IsPutAway};
ghost use Rattle.zq_node.specs.Work.{AreTurns, IsTurn, WasShort, WasStopped, WasWorn};
ghost use Rattle.zq_spread.specs.Calls.{IsOfSite, heaps_of};

use crate::faults::NodeFault;
use crate::node::Node;
use crate::parked::Parked;
use std::alloc::{AllocError, Global};
use std::sync::Wait;
use zq_dots::Op;
use zq_shard::Taken;

/// Parks a copy of an operation, unless one of its heap and dot is parked. Where as many are parked
/// as there may be, it is dropped, as if it had been lost.
pub(crate) fn keep(parked: &mut Parked, alloc: Global, op: &Op) -> Result<(), AllocError>
    ensures put { OnOk result
        (IsPutAway parked.old.most op.now parked.old.entries parked.new.entries) }
    ensures most { parked.new.most ≡ parked.old.most }
    ensures refused { OnErr result (parked.new ≡ parked.old) }
    ensures absent { OnErr result (HasPlaceOf parked.old.entries op.now → ⊥) }
    ensures room { OnErr result (length parked.old.entries < parked.old.most) }
{
    if parked.has_place_of(op) {
        return Ok(());
    }
    if parked.is_full() {
        return Ok(());
    }
    let copy = op.copy(alloc)?;
    let _ = parked.park(copy)?;
    Ok(())
}

/// Parks an operation itself, unless one of its heap and dot is parked: its key and its member are
/// empty then. Where as many are parked as there may be, it is dropped, as if it had been lost.
/// Where memory is refused it is as it was.
pub(crate) fn keep_own(parked: &mut Parked, alloc: Global, op: &mut Op) -> Result<(), AllocError>
    ensures put { OnOk result
        (IsPutAway parked.old.most op.old parked.old.entries parked.new.entries) }
    ensures most { parked.new.most ≡ parked.old.most }
    ensures refused { OnErr result (parked.new ≡ parked.old) }
    ensures kept { OnErr result (op.new ≡ op.old) }
{
    if parked.has_place_of(op) {
        return Ok(());
    }
    if parked.is_full() {
        return Ok(());
    }
    let mut own = op.bare(alloc);
    own.swap_names(op);
    match parked.park_or_return(own) {
        Ok(_) => Ok(()),
        Err(failed) => {
            let mut own = failed.value;
            own.swap_names(op);
            Err(AllocError)
        }
    }
}

impl Node<'_> {
    /// Hands the site an operation.
    fn hand<R: Wait>(&mut self, rt: &R, alloc: Global, op: &Op) -> Result<Taken, NodeFault>
        requires node { IsNode self.old }
        ensures node { IsNode self.new }
        ensures home { IsSameHome self.old self.new }
        ensures parked { parked_of self.new ≡ parked_of self.old }
        ensures called { IfOk result
            (λ taken. IsCalled (site_of self.old) (pass_of self.old) (pass_of self.new)
            (Took op.now taken)) }
        ensures within { OnOk result (op.now.operation.heap < heaps_of (site_of self.old)) }
        ensures stopped { OnErr result (MadeNoStep (pass_of self.old) (pass_of self.new)) }
        ensures stop { IfErr result (IsStopOf (site_of self.old) (Some op.now)) }
        ensures unheard { IsErrOf result NodeFault.WrongHeap → self.new ≡ self.old }
        ensures short { IsErrOf result NodeFault.NoMemory →
            HadNoRoom (site_of self.old) (pass_of self.old) (pass_of self.new) op.now }
        ensures worn { IsErrOf result NodeFault.Worn →
            WasAtLast (site_of self.old) (pass_of self.old) (pass_of self.new) op.now }
    {
        match self.home.site.take(rt, alloc, &mut self.pass, op) {
            Ok(taken) => Ok(taken),
            Err(fault) => Err(NodeFault::from(fault)),
        }
    }

    /// Hands the site an operation. One that is Early is parked, and after one that is New those
    /// that are parked in its heap are tried again.
    fn take<R: Wait>(&mut self, rt: &R, alloc: Global, op: &Op) -> Result<(), NodeFault>
        requires node { IsNode self.old }
        ensures node { IsNode self.new }
        ensures home { IsSameHome self.old self.new }
        ensures turn { OnOk result (IsTurn op.now self.old self.new) }
        ensures stopped { OnErr result (WasStopped (op.now ∷ []) self.old self.new) }
        ensures stop { IfErr result (IsStopOf (site_of self.old) (Some op.now)) }
        ensures unheard { IsErrOf result NodeFault.WrongHeap → self.new ≡ self.old }
        ensures short { IsErrOf result NodeFault.NoMemory → WasShort op.now self.old self.new }
        ensures worn { IsErrOf result NodeFault.Worn → WasWorn op.now self.old self.new }
    {
        let taken = self.hand(rt, alloc, op)?;
        match taken {
            Taken::New => {
                self.settle(rt, alloc, op.heap())?;
                Ok(())
            }
            Taken::Known => Ok(()),
            Taken::Early => {
                keep(&mut self.parked, alloc, op)?;
                Ok(())
            }
        }
    }

    /// Hands the site each operation in turn, and then tries all that is parked.
    pub(crate) fn take_all<R: Wait>(
        &mut self,
        rt: &R,
        alloc: Global,
        ops: &[Op],
    ) -> Result<(), NodeFault>
        requires node { IsNode self.old }
        ensures node { IsNode self.new }
        ensures home { IsSameHome self.old self.new }
        ensures heard { OnOk result (AreOpsHeard ops.now self.old self.new) }
        ensures stopped { IfErr result (AreOpsStopped ops.now self.old self.new) }
        ensures for_site { OnOk result ((o : Placed) → IsIn o ops.now →
            IsOfSite (site_of self.old) o) }
    {
        self.take_each(rt, alloc, ops)?;
        self.settle_all(rt, alloc)?;
        Ok(())
    }

    /// Hands the site each operation in turn.
    fn take_each<R: Wait>(&mut self, rt: &R, alloc: Global, ops: &[Op]) -> Result<(), NodeFault>
        requires node { IsNode self.old }
        ensures node { IsNode self.new }
        ensures home { IsSameHome self.old self.new }
        ensures turns { OnOk result (AreTurns ops.now self.old self.new) }
        ensures stopped { IfErr result (AreOpsStopped ops.now self.old self.new) }
    {
        for op in ops {
            self.take(rt, alloc, op)?;
        }
        Ok(())
    }
}
