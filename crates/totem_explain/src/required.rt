//! Counts that a run is required to have (docs/PROGRAM.md, "Counts that are required").
use crate::counts::Counts;
use std::alloc::{AllocError, Global};

/// The names of the counts that can be required: those of the shape of a run, the first one of each specification, and the quiet logs that
/// lack nothing.
pub const REQUIRABLE: [&'static str; 23] = [
    "regular",
    "shared",
    "partition",
    "merge",
    "returned",
    "transitional",
    "safe-sent",
    "safe",
    "1.1",
    "1.3",
    "1.4",
    "2.1",
    "2.2",
    "2.3",
    "2.4",
    "3",
    "4",
    "5",
    "6.1",
    "6.3",
    "7.1",
    "7.2",
    "complete",
];

/// A set of counts that must not be 0; `complete` has to be that of all quiet logs.
#[derive(Clone, Copy)]
pub struct Required {
    // Bit i stands for the i-th requirable count.
    bits: u32,
}

impl Required {
    /// Returns the counts with these names. Other names are ignored.
    pub fn of(names: &[&str]) -> Required {
        let mut bits = 0u32;
        let mut bit = 1u32;
        for known in REQUIRABLE {
            if names.iter().any(|name| *name == known) {
                bits |= bit;
            }
            bit <<= 1;
        }
        Required { bits }
    }

    /// Returns the line that says which required counts are 0, or an empty text if none is.
    fn lacking(self, alloc: Global, counts: &Counts) -> Result<String, AllocError> {
        let mut text = String::new(alloc);
        let mut bit = 1u32;
        for name in REQUIRABLE {
            let is_low = counts.value_of(name) == 0 || name == "complete" && counts.missing > 0;
            if self.bits & bit != 0 && is_low {
                text.push_str(if text.is_empty() {
                    "totem: not tested: "
                } else {
                    ", "
                })?;
                text.push_str(name)?;
            }
            bit <<= 1;
        }
        if !text.is_empty() {
            text.push_str("\n")?;
        }
        Ok(text)
    }
}

/// What a run lacks of what was asked for: required counts, or a fault.
#[derive(Drop)]
pub struct Lacking {
    required: Required,
    line: String,
    no_fault: String,
}

impl Lacking {
    /// Nothing is known of the run yet.
    pub fn of(alloc: Global, required: Required) -> Lacking {
        Lacking {
            required,
            line: String::new(alloc),
            no_fault: String::new(alloc),
        }
    }

    /// Learns which of the required counts are 0.
    pub fn learn(&mut self, alloc: Global, counts: &Counts) -> Result<(), AllocError> {
        self.line = self.required.lacking(alloc, counts)?;
        Ok(())
    }

    /// Learns that the report of the run has no fault with this number, but so many.
    pub fn miss_fault(
        &mut self,
        alloc: Global,
        number: u32,
        count: usize,
    ) -> Result<(), AllocError> {
        self.no_fault = format!(in alloc;
            "totem: there is no fault {number}: faults in the report: {count}\n"
        )?;
        Ok(())
    }

    /// Returns the line that says that a fault is lacking, or an empty text.
    pub fn no_fault(&self) -> &str {
        self.no_fault.as_str()
    }

    /// Returns the line that says which they are, or an empty text.
    pub fn line(&self) -> &str {
        self.line.as_str()
    }
}
