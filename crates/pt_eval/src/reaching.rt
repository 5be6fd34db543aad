// The nodes that roots reach.
ghost use Rattle.std.specs.Prelude.{◌<◌, length, IfOk, OnOk};
ghost use Rattle.std.specs.BinaryHeap.{IsHeap, heap_items};
ghost use Rattle.std.specs.List.{AllByRecursion};
ghost use Rattle.std.specs.Ordering.{nat_cmp};
ghost use Rattle.pt_eval.specs.Levels.{listed, IsPushed, AreReached};

use crate::levels::{Children, children_of};
use pt_formula::{Formula, NodeId};
use std::alloc::{AllocError, Global};
use std::collections::BinaryHeap;

/// Puts nodes into a heap.
fn push_all(waiting: &mut BinaryHeap<NodeId>, nodes: &[NodeId]) -> Result<(), AllocError>
    requires { IsHeap nat_cmp (heap_items waiting.old) }
    ensures order { OnOk result (IsHeap nat_cmp (heap_items waiting.new)) }
    ensures pushed { OnOk result (IsPushed nodes.now (heap_items waiting.old) (heap_items waiting.new)) }
{
    for node in nodes {
        waiting.push(*node)?;
    }
    Ok(())
}

/// Puts the children of a node into a heap.
fn push_children(waiting: &mut BinaryHeap<NodeId>, children: Children) -> Result<(), AllocError>
    requires { IsHeap nat_cmp (heap_items waiting.old) }
    ensures order { OnOk result (IsHeap nat_cmp (heap_items waiting.new)) }
    ensures pushed { OnOk result (IsPushed (listed children) (heap_items waiting.old) (heap_items waiting.new)) }
{
    match children {
        Children::Nothing => push_all(waiting, &[]),
        Children::One(a) => push_all(waiting, &[a]),
        Children::Two(a, b) => push_all(waiting, &[a, b]),
    }
}

/// The nodes that the roots reach, by number. They are found from the greatest down: each goes into a heap as often as it is
/// a root or a child of another of them, and out of it after all its parents, since children come earlier. So it takes
/// n log n steps where the roots reach n nodes, however long the formula is.
pub(crate) fn reached(
    alloc: Global,
    formula: &Formula,
    roots: &[NodeId],
) -> Result<Vec<NodeId>, AllocError>
    requires { AllByRecursion (λ root. root < length formula.now) roots.now }
    ensures { IfOk result (λ nodes. AreReached formula.now roots.now nodes.items) }
{
    let mut waiting = BinaryHeap::new(alloc);
    push_all(&mut waiting, roots)?;
    let mut nodes = Vec::new(alloc);
    let mut end = formula.len();
    while let Some(node) = waiting.pop() {
        if node < end {
            push_children(&mut waiting, children_of(formula.node(node)))?;
            nodes.push(node)?;
            end = node;
        }
    }
    nodes.reverse();
    Ok(nodes)
}
