//! The bands of configurations, and the names of processes before them.
use crate::colours::Colours;
use crate::frame::{Frame, MARGIN};
use crate::shapes::{Point, push_band, push_label, push_textures, push_words};
use std::alloc::{AllocError, Global};
use totem_evs::{Ending, Run};
use totem_explain::Lane;
use totem_names::{ConfId, Proc, Version};

/// A stretch of a lane in one configuration.
#[derive(Clone, Copy)]
pub struct Band {
    pub conf: ConfId,
    pub from: u32,
    pub to: u32,
}

/// The bands of a lane, in order, with its process, how its log ends, and how many deliveries are pending there.
#[derive(Drop)]
pub struct Row {
    pub proc: Proc,
    pub ending: Ending,
    pub pending: usize,
    pub bands: Vec<Band>,
}

impl Band {
    /// Returns the part of the band that is drawn in a frame, if any.
    fn within(&self, frame: &Frame) -> Option<Band> {
        if self.to < frame.first || frame.end() <= self.from {
            return None;
        }
        Some(Band {
            conf: self.conf,
            from: self.from.max(frame.first),
            to: self.to.min(frame.end().saturating_sub(1)),
        })
    }

    /// Returns whether the band begins in a frame.
    pub fn begins_in(&self, frame: &Frame) -> bool {
        frame.first <= self.from && self.from < frame.end()
    }
}

/// Adds a band with this fill.
fn push_one(
    text: &mut String,
    frame: &Frame,
    y: u32,
    band: &Band,
    fill: usize,
) -> Result<(), AllocError> {
    let x = frame.x(band.from);
    let at = Point {
        x,
        y: y.saturating_sub(14),
    };
    let end = frame.x(band.to.saturating_add(1));
    let width = end.saturating_sub(x).saturating_sub(4);
    let is_transitional = matches!(band.conf, ConfId::Transitional { .. });
    push_band(text, at, width, fill, is_transitional)
}

/// Adds the name of a band's configuration above it.
fn push_name(
    alloc: Global,
    text: &mut String,
    frame: &Frame,
    y: u32,
    band: &Band,
) -> Result<(), AllocError> {
    let conf = band.conf;
    let name = format!(in alloc; "{conf}")?;
    let above = Point {
        x: frame.middle(band.from),
        y: y.saturating_sub(20),
    };
    push_label(text, above, name.as_str())
}

/// Ends the last band before a slot.
fn end_before(bands: &mut Vec<Band>, slot: u32) {
    if let Some(band) = bands.last_mut() {
        band.to = slot.saturating_sub(1).max(band.to);
    }
}

/// Returns the bands of a lane, in order. Each extends to the next. The last extends to the end, unless the process failed.
fn bands_of(alloc: Global, lane: &Lane, slots: u32) -> Result<Vec<Band>, AllocError> {
    let mut bands: Vec<Band> = Vec::new(alloc);
    for spot in lane.spots.as_slice() {
        let Some(conf) = spot.conf else {
            continue;
        };
        if bands.last().is_some_and(|band| band.conf == conf) {
            continue;
        }
        end_before(&mut bands, spot.slot);
        bands.push(Band {
            conf,
            from: spot.slot,
            to: spot.slot,
        })?;
    }
    let end = match lane.ending {
        Ending::Standing | Ending::Quiet => slots,
        Ending::Failed => lane
            .spots
            .last()
            .map_or(slots, |spot| spot.slot.saturating_add(1)),
    };
    end_before(&mut bands, end);
    Ok(bands)
}

fn ending_name(ending: Ending) -> &'static str {
    match ending {
        Ending::Standing => "open",
        Ending::Failed => "failed",
        Ending::Quiet => "quiet",
    }
}

/// Returns the name of a process in front of its lane.
fn name_of(alloc: Global, version: Version, proc: Proc) -> Result<String, AllocError> {
    let proc = proc.written(version);
    format!(in alloc; "process {proc}")
}

/// Returns how many letters the longest name in front of a lane has.
pub fn most_letters(alloc: Global, run: &Run) -> Result<usize, AllocError> {
    let mut most = 0usize;
    for log in run.logs.as_slice() {
        most = most.max(name_of(alloc, run.version, log.proc)?.len());
    }
    Ok(most)
}

/// Adds the process of a row with how its log ends, and how many deliveries are pending if any are.
fn push_process(
    alloc: Global,
    text: &mut String,
    version: Version,
    y: u32,
    row: &Row,
) -> Result<(), AllocError> {
    let name = name_of(alloc, version, row.proc)?;
    push_words(text, Point { x: MARGIN, y }, name.as_str())?;
    let below = Point {
        x: MARGIN,
        y: y.saturating_add(14),
    };
    push_words(text, below, ending_name(row.ending))?;
    if row.pending == 0 {
        return Ok(());
    }
    let pending = row.pending;
    let last = Point {
        x: MARGIN,
        y: y.saturating_add(28),
    };
    push_words(text, last, format!(in alloc; "{pending} pending")?.as_str())
}

/// The bands of all lanes, and the fills of their configurations.
#[derive(Drop)]
pub struct Bands {
    pub rows: Vec<Row>,
    colours: Colours,
}

impl Bands {
    /// Gives the configurations of these rows their fills.
    pub fn of(alloc: Global, rows: Vec<Row>) -> Result<Bands, AllocError> {
        let colours = Colours::of(alloc, rows.as_slice())?;
        Ok(Bands { rows, colours })
    }

    /// Returns the bands of these lanes.
    pub fn of_lanes(alloc: Global, frame: &Frame, lanes: &[Lane]) -> Result<Bands, AllocError> {
        let mut rows = Vec::new(alloc);
        for lane in lanes {
            rows.push(Row {
                proc: lane.proc,
                ending: lane.ending,
                pending: 0,
                bands: bands_of(alloc, lane, frame.slots)?,
            })?;
        }
        Bands::of(alloc, rows)
    }

    /// Adds the textures of the bands, if any has one.
    pub fn push_textures(&self, text: &mut String) -> Result<(), AllocError> {
        if self.colours.have_textures() {
            push_textures(text)?;
        }
        Ok(())
    }

    /// Adds the bands, as far as they lie in a frame, and the names of processes before them.
    pub fn push(
        &self,
        alloc: Global,
        text: &mut String,
        version: Version,
        frame: &Frame,
    ) -> Result<(), AllocError> {
        for (number, row) in self.rows.iter().enumerate() {
            let y = frame.y(number);
            push_process(alloc, text, version, y, row)?;
            for band in row.bands.iter().filter_map(|band| band.within(frame)) {
                push_one(text, frame, y, &band, self.colours.fill_of(&band.conf))?;
            }
        }
        Ok(())
    }

    /// Adds the names of the configurations above their bands.
    pub fn push_names(
        &self,
        alloc: Global,
        text: &mut String,
        frame: &Frame,
    ) -> Result<(), AllocError> {
        for (number, row) in self.rows.iter().enumerate() {
            let y = frame.y(number);
            for band in row.bands.iter().filter_map(|band| band.within(frame)) {
                push_name(alloc, text, frame, y, &band)?;
            }
        }
        Ok(())
    }
}
