//! All rules of one regular configuration.
ghost use Rattle.std.specs.Bool.{OnTrue};
ghost use Rattle.totem_judge_traffic.specs.Clean.{AreShown, IsAllShown, IsNoneShown, ShowsAgreement};

use crate::atomicity_4::atomicity_is_met;
use crate::causality_5::causality_is_met;
use crate::gap_6_3::no_gap_is_left;
use crate::installed_7_2::installed_is_met;
use crate::own_3::own_delivery_is_met;
use crate::safety_7_1::safety_is_met;
use crate::traffic::Traffic;

/// For each specification of the last pass, whether the traffic of a configuration shows that the run meets it there. Nothing
/// follows from `false`.
#[derive(Clone, Copy, Debug)]
pub struct Shown {
    pub own: bool,
    pub atomicity: bool,
    pub causality: bool,
    pub gap: bool,
    pub safety: bool,
    pub installed: bool,
}

impl Shown {
    /// Applies the rules of the configuration.
    pub fn by(traffic: &Traffic) -> Shown
        ensures { AreShown traffic.now result }
    {
        Shown {
            own: own_delivery_is_met(traffic),
            atomicity: atomicity_is_met(traffic),
            causality: causality_is_met(traffic),
            gap: no_gap_is_left(traffic),
            safety: safety_is_met(traffic),
            installed: installed_is_met(traffic),
        }
    }

    /// Returns what is shown without any traffic.
    pub fn nothing() -> Shown
        ensures { IsNoneShown result }
    {
        Shown {
            own: false,
            atomicity: false,
            causality: false,
            gap: false,
            safety: false,
            installed: false,
        }
    }

    pub fn is_all(&self) -> bool
        ensures { OnTrue result (IsAllShown self.now) }
    {
        self.own && self.atomicity && self.causality && self.gap && self.safety && self.installed
    }
}

/// Returns `true` only where the run meets specifications 3, 4, 5, 6.3, 7.1 and 7.2 in the configuration.
#[tactic(auto, using(crate::proofs::Agreeing::shown_agreed))]
pub fn is_agreed(traffic: &Traffic) -> bool
    ensures { OnTrue result (ShowsAgreement traffic.now) }
{
    let shown = Shown::by(traffic);
    shown.is_all()
}
