//! Quick tests, which make most searches of a run unnecessary.
ghost use Rattle.std.specs.Prelude.{◌≡◌, ◌<◌, List, Some, slice_get};
ghost use Rattle.std.specs.Bool.{OnTrue, OnFalse};
ghost use Rattle.totem_evs.specs.declared.log.Log.{Log};
ghost use Rattle.totem_evs.specs.Events.{log_of};
ghost use Rattle.totem_search.specs.Search.{HoldsOfNone, IsOneEvent};
ghost use Rattle.totem_search.specs.Pairs.{Has};
ghost use Rattle.totem_search.specs.Bad.{AreTwice, AreTwoForms};
ghost use Rattle.totem_search.specs.Unsent.{IsUnsentDelivery};
ghost use Rattle.totem_search.specs.Turns.{IsOtherOrigin};

use crate::pairs::Standing;
use totem_evs::{Entry, Run};
use totem_names::{ConfId, Proc, RingId};

/// A run, and what is known of it. A test that knows nothing leaves all to the search.
pub trait QuickTests {
    /// The logs of the run.
    ghost of: { Self → List Log };

    fn run(&self) -> &Run
        ensures { result.now.logs ≡ of self.now };

    /// Returns `false` only if no entry has the message of this one twice, together with it.
    fn may_be_twice(&self, _first: &Standing) -> bool
        requires few { _first.now.at < 1000000 }
        requires here { slice_get (log_of (of self.now) _first.now.proc) _first.now.at ≡ Some _first.now.entry.now }
        ensures { OnFalse result (HoldsOfNone (IsOneEvent (Has (of self.now) (AreTwice _first.now.proc _first.now.at _first.now.entry.now)))) }
    {
        true
    }

    /// Returns `false` only if no change is to the same configuration again, or with other members.
    fn may_have_two_forms(&self, _first: &Standing) -> bool
        requires few { _first.now.at < 1000000 }
        requires here { slice_get (log_of (of self.now) _first.now.proc) _first.now.at ≡ Some _first.now.entry.now }
        ensures { OnFalse result (HoldsOfNone (IsOneEvent (Has (of self.now) (AreTwoForms _first.now.proc _first.now.at _first.now.entry.now)))) }
    {
        true
    }

    /// Returns `true` only if the entry is no delivery by `proc` of what was not sent for it.
    fn is_sent(&self, _proc: Proc, _entry: &Entry) -> bool
        ensures { OnTrue result (IsUnsentDelivery (of self.now) (log_of (of self.now) _proc) _entry.now → ⊥) }
    {
        false
    }

    /// Returns `false` only if no log above `proc` comes to `conf` from another ring.
    fn may_differ(&self, _proc: Proc, _ring: &RingId, _conf: &ConfId) -> bool
        ensures { OnFalse result (HoldsOfNone (IsOtherOrigin (of self.now) _proc _ring.now _conf.now)) }
    {
        true
    }
}

impl QuickTests for Run {
    ghost of = { λ run. run.logs };

    fn run(&self) -> &Run {
        self
    }
}
