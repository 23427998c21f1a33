//! The name of a message among the arguments.
use std::alloc::{AllocError, Global};
use totem_names::{MsgId, ProcId, RingId};

/// Returns the message that these parts of a name name, whatever their spelling.
fn message_of(seq: &str, rep: &str, number: &str) -> Option<MsgId> {
    let rep = ProcId::new(rep.parse::<u16>().ok()?)?;
    let ring = RingId::new(seq.parse::<u32>().ok()?, rep)?;
    MsgId::new(ring, number.parse::<u32>().ok()?)
}

/// Returns the message with this name, as in `317.1#52`, or `None` if a run's text can't have it.
pub fn message_named(alloc: Global, name: &str) -> Result<Option<MsgId>, AllocError> {
    let Some((ring, number)) = name.split_once('#') else {
        return Ok(None);
    };
    let Some((seq, rep)) = ring.split_once('.') else {
        return Ok(None);
    };
    let Some(message) = message_of(seq, rep, number) else {
        return Ok(None);
    };
    // (a number has one spelling)
    let is_spelled = format!(in alloc; "{message}")?.as_str() == name;
    Ok(if is_spelled { Some(message) } else { None })
}
