//! Changes of configuration in a log.
ghost use Rattle.std.specs.Prelude.{◌<◌, IfSome, IfNone, length};
ghost use Rattle.totem_evs.specs.Events.{ChangesTo};
ghost use Rattle.totem_stitch.specs.Building.{IsNoRegular, NoneComesNext, MovesNext};

use totem_evs::Entry;
use totem_names::{ConfId, RingId};

/// Returns the ring of the regular configuration to which the entry at this index changes, or `None` if there is none.
pub fn regular_at(log: &[Entry], at: usize) -> Option<RingId>
    requires { at < length log.now }
    ensures found { IfSome result (λ ring. ChangesTo log.now at (ConfId.Regular ring)) }
    ensures none { IfNone result (IsNoRegular log.now at) }
{
    match &log[at] {
        Entry::Conf(ConfId::Regular(ring), _) => Some(*ring),
        _ => None,
    }
}

/// Returns the configuration of the next change after this index, if that is transitional.
pub fn moves_next(log: &[Entry], at: usize) -> Option<ConfId>
    requires { at < length log.now }
    ensures found { IfSome result (MovesNext log.now at) }
    ensures none { IfNone result (NoneComesNext log.now at) }
{
    for next_at in at + 1..log.len() {
        if let Entry::Conf(next, _) = &log[next_at] {
            return match next {
                ConfId::Regular(_) => None,
                ConfId::Transitional { .. } => Some(*next),
            };
        }
    }
    None
}
