ghost use Rattle.std.specs.Prelude.{IfOk};
ghost use Rattle.totem_pass_d.specs.Findings.{AreFindings, AreMet};
ghost use Rattle.totem_pass_d.specs.KnownStays.{AreKnown};

use crate::installed_7_2::Uninstalled;
use crate::own_3::Undelivered;
use crate::safety_7_1::Unreached;
use crate::search::least_event;
use crate::stays::Stays;
use crate::{atomicity_4, causality_5, gap_6_3};
use std::alloc::{AllocError, Global};
use totem_evs::Places;
use totem_judge_traffic::Shown;

/// The findings of one job: for each specification of the last pass the least events that break it in one regular configuration, or none
/// if the run meets it there. `own` is of 3, `atomicity` of 4, `causality` of 5, `gap` of 6.3, `safety` of 7.1, `installed` of 7.2.
#[derive(Debug, Drop)]
pub struct Findings {
    pub own: Option<Places>,
    pub atomicity: Option<Places>,
    pub causality: Option<Places>,
    pub gap: Option<Places>,
    pub safety: Option<Places>,
    pub installed: Option<Places>,
}

impl Findings {
    ghost use Rattle.totem_pass_d.specs.Findings.{AreNone};

    /// Returns the findings of a configuration in which nothing is broken.
    pub fn none() -> Findings
        ensures { AreNone result }
    {
        Findings {
            own: None,
            atomicity: None,
            causality: None,
            gap: None,
            safety: None,
            installed: None,
        }
    }
}

/// Does the job of one regular configuration, which is known to meet what is shown.
pub fn findings_in(alloc: Global, stays: &Stays, shown: &Shown) -> Result<Findings, AllocError>
    requires known { AreKnown stays.now }
    requires met { AreMet stays.now.run.now.logs stays.now.ring shown.now }
    ensures { IfOk result (AreFindings stays.now.run.now.logs stays.now.ring) }
{
    Ok(Findings {
        own: least_event(&Undelivered { stays }, alloc, stays, shown.own)?,
        atomicity: atomicity_4::find(alloc, stays, shown.atomicity)?,
        causality: causality_5::find(alloc, stays, shown.causality)?,
        gap: gap_6_3::find(alloc, stays, shown.gap)?,
        safety: least_event(&Unreached { stays }, alloc, stays, shown.safety)?,
        installed: least_event(&Uninstalled { stays }, alloc, stays, shown.installed)?,
    })
}
