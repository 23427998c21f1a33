//! The text below a picture that says how to read it, as far as the picture has such signs.
use std::alloc::{AllocError, Global};
use totem_explain::{Lane, Spot, What};
use totem_names::ConfId;

/// Which signs a picture has.
#[derive(Clone, Copy, Default)]
struct Signs {
    sends: bool,
    deliveries: bool,
    changes: bool,
    transitional: bool,
    failures: bool,
    missing: bool,
    left_out: bool,
}

impl Signs {
    fn add(&mut self, spot: &Spot) {
        self.transitional |= matches!(spot.conf, Some(ConfId::Transitional { .. }));
        match spot.what {
            What::Send(_) => self.sends = true,
            What::Delivery(_) => self.deliveries = true,
            What::Change => self.changes = true,
            What::Failure => self.failures = true,
            What::Lacking(_) => self.missing = true,
            What::LeftOut(_) => self.left_out = true,
        }
    }
}

/// Returns the text below a picture of these lanes, of which some have pending deliveries or none has.
pub fn legend_of(alloc: Global, lanes: &[Lane], has_pending: bool) -> Result<String, AllocError> {
    let mut signs = Signs::default();
    for lane in lanes {
        for spot in lane.spots.as_slice() {
            signs.add(spot);
        }
    }
    let mut text = String::from_str(alloc, "From left to right as each process saw it.")?;
    for (is_there, words) in [
        (signs.sends, " A dot is a send."),
        (signs.deliveries, " A ring is a delivery."),
        (
            signs.changes,
            " A bar is a change of the configuration, whose band follows.",
        ),
        (
            signs.transitional,
            " The band of a transitional configuration is dashed.",
        ),
        (signs.failures, " A cross is a failure."),
        (signs.missing, " A dashed ring is an event that is missing."),
        (
            has_pending,
            " A dashed line to a ring behind the lane is a pending delivery.",
        ),
        (
            signs.left_out,
            " Where it says .. 12, 3 conf, 12 entries are left out, 3 of them changes.",
        ),
    ] {
        if is_there {
            text.push_str(words)?;
        }
    }
    Ok(text)
}
