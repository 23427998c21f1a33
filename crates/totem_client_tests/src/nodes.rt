//! Nodes and scripts: totem_node.
use std::alloc::{AllocError, Global};
pub use totem_node::{
    Act, FaultyLine, Input, NodeCore, NodeFault, RingStep, ScriptFault, StepOut, To, follow,
    simulate,
};

pub fn has_crashed(node: &NodeCore) -> bool {
    node.has_crashed()
}

pub fn copy(alloc: Global, node: &NodeCore) -> Result<NodeCore, AllocError> {
    node.try_clone(alloc)
}

pub fn copies(
    alloc: Global,
    out: &StepOut,
    step: &RingStep,
    input: &Input,
) -> Result<(), AllocError> {
    let _ = out.try_clone(alloc)?;
    let _ = step.try_clone(alloc)?;
    let _ = step.act.try_clone(alloc)?;
    let _ = input.try_clone(alloc)?;
    Ok(())
}

pub fn line(alloc: Global, script: &[u8]) -> Option<(ScriptFault, u32)> {
    match follow(alloc, script) {
        Ok(_) => None,
        Err(FaultyLine { kind, line }) => Some((kind, line)),
    }
}
