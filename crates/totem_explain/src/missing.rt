//! What quiet logs lack of the agreed messages of others, where they end (docs/SPECIFICATIONS.md, "Counts").
use crate::counts::Counts;
use crate::survey::Survey;
use crate::traffic::Traffic;
use crate::yes::delivery_lines;
use std::alloc::{AllocError, Global};
use totem_evs::{Pending, Run};

/// Returns the deliveries that are missing, in ascending order.
fn missing_of(alloc: Global, run: &Run) -> Result<Vec<Pending>, AllocError> {
    let Survey {
        mut sites,
        messages,
        ..
    } = Survey::of(alloc, run)?;
    let traffic = Traffic::of(alloc, run, &mut sites, &messages, false)?;
    let mut list = Vec::new(alloc);
    let mut bit = 1u32;
    for log in run.logs.as_slice() {
        for (index, one) in traffic.sent.iter().enumerate() {
            let site = sites.list.get(one.site as usize);
            let is_missing = site.is_some_and(|site| one.missing_at(site) & bit != 0);
            if is_missing && let Some(msg) = messages.message(index) {
                list.push(Pending {
                    proc: log.proc,
                    msg,
                })?;
            }
        }
        bit <<= 1;
    }
    Ok(list)
}

/// Returns what quiet logs lack under a heading, or nothing if these counts of the run say that they lack nothing.
pub fn told_missing(alloc: Global, run: &Run, counts: &Counts) -> Result<String, AllocError> {
    if counts.missing == 0 {
        return Ok(String::new(alloc));
    }
    let list = missing_of(alloc, run)?;
    let lines = delivery_lines(alloc, run.version, list.as_slice(), "did not deliver")?;
    format!(in alloc; "Missing where quiet logs end, which alone is not a fault:\n{lines}")
}
