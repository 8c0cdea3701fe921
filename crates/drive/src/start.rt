use crate::Computation;
use checkpointer::Checkpointer;

/// A run at its start: the computation, and what makes its checkpoints.
#[derive(Drop)]
pub struct Start {
    pub computation: Computation,
    pub checkpointer: Checkpointer,
}
