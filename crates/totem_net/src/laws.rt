//! Laws of held copies over many packets.
ghost use Rattle.totem_net.specs.Waiting.{WaitTheirTime, NoneIsLost};

/// A copy is held until the number of further packets that it lets pass have arrived, and no longer.
#[tactic(auto, using(crate::proofs::Waits::wait_their_time))]
pub fn copies_wait_their_time()
    ensures { WaitTheirTime }
{}

/// Each copy is either forwarded or held.
#[tactic(auto, using(crate::proofs::Waits::none_is_lost))]
pub fn no_copy_is_lost()
    ensures { NoneIsLost }
{}
