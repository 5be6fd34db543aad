// What is told before and after the work at a node.
use pt_formula::NodeId;

/// Is told when the work at a node starts and when it is done. It promises nothing.
pub trait Gate: Sync {
    /// The work at the node is about to start.
    fn start(&self, node: NodeId);

    /// The work at the node is done.
    fn done(&self, node: NodeId);
}

/// A gate that does nothing.
pub struct Open;

impl Gate for Open {
    fn start(&self, _node: NodeId) {}

    fn done(&self, _node: NodeId) {}
}
