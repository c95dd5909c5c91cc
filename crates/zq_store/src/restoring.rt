//! Giving a site the heaps that it had.

ghost use Rattle.zq_node.specs.Node.{IsNode, IsSameHome};

use crate::fault::of_data;
use std::sync::Wait;
use zq_node::Node;
use zq_replica::Logs;
use zq_serve::{DataFault, ServeFault};
use zq_shard::Shard;

/// Has each heap take the place of the site's own, which is empty. The logs begin behind them.
pub(crate) fn restore<R: Wait>(
    rt: &R,
    logs: &Logs,
    node: &mut Node<'_>,
    shards: Vec<Shard>,
) -> Result<(), ServeFault>
    requires { IsNode node.old }
    ensures node { IsNode node.new }
    ensures home { IsSameHome node.old node.new }
{
    for shard in shards {
        let mut shard = shard;
        let (heap, vector) = (shard.heap(), *shard.vector());
        if node.take_over(rt, &mut shard).is_err() {
            return Err(of_data(DataFault::Unfit));
        }
        logs.begin_behind(rt, heap, &vector);
    }
    Ok(())
}
