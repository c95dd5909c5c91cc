//! Operations whose key and member lie elsewhere, and those that have copies of them.

ghost use Rattle.std.specs.Prelude.{◌≡◌, ◌++◌, ◌∷◌, IfOk, OnOk, []};

use crate::view::View;
use std::alloc::{AllocError, Global};
use zq_dots::{Dot, Op};
use zq_fields::HeapNo;

/// Operations with copies of the keys and the members.
pub(crate) fn ops_of(alloc: Global, views: &[View<'_>]) -> Result<Vec<Op>, AllocError>
    ensures { IfOk result (λ ops. ops.items ≡ views.now) }
{
    let mut ops = Vec::with_capacity(alloc, views.len())?;
    for view in views {
        let op = op_of(alloc, view)?;
        append_op(&mut ops, op)?;
    }
    Ok(ops)
}

fn append_op(ops: &mut Vec<Op>, op: Op) -> Result<(), AllocError>
    ensures { OnOk result (ops.new.items ≡ ops.old.items ++ op ∷ []) }
{
    ops.push(op)?;
    Ok(())
}

/// An operation with copies of the key and the member.
fn op_of(alloc: Global, view: &View<'_>) -> Result<Op, AllocError>
    ensures { IfOk result (λ op. op ≡ view.now) }
{
    let heap = view.heap();
    let dot = Dot {
        site: view.site(),
        n: view.n(),
    };
    let key = Vec::from_slice(alloc, view.key())?;
    let member = Vec::from_slice(alloc, view.member())?;
    Ok(Op::new(
        heap.heap,
        heap.heaps,
        dot,
        *view.seen(),
        key,
        member,
        view.act(),
    ))
}

/// The same operations, whose keys and members stay where they are.
pub(crate) fn views_of<'a>(alloc: Global, ops: &'a [Op]) -> Result<Vec<View<'a>>, AllocError>
    ensures { IfOk result (λ views. views.items ≡ ops.now) }
{
    let mut views = Vec::with_capacity(alloc, ops.len())?;
    for op in ops {
        append_view(&mut views, view_of(op))?;
    }
    Ok(views)
}

fn append_view<'a>(views: &mut Vec<View<'a>>, view: View<'a>) -> Result<(), AllocError>
    ensures { OnOk result (views.new.items ≡ views.old.items ++ view.entry ∷ []) }
{
    views.push(view)?;
    Ok(())
}

fn view_of<'a>(op: &'a Op) -> View<'a>
    ensures { result ≡ op.now }
{
    let heap = HeapNo {
        heap: op.heap(),
        heaps: op.heaps(),
    };
    View::new(
        heap,
        op.dot().site,
        *op.seen(),
        op.act(),
        op.key(),
        op.member(),
    )
}
