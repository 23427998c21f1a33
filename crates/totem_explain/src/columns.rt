//! The lines of the logs around the places of a fault, side by side.
use crate::absence::Absence;
use crate::event::line_of;
use crate::fitted::push_spaces;
use crate::lane::{Excerpt, Gap, Lane, Spot, What};
use crate::layout::lay_out;
use crate::lookup::{entry_of, log_of};
use std::alloc::{AllocError, Global};
use totem_evs::{Ending, Log, Run};
use totem_names::{Place, Version};

/// How many entries are shown before and after a place.
const AROUND: u32 = 2;

/// How many spaces precede the first column.
const INDENT: usize = 2;

/// How many spaces are between two columns at least.
const BETWEEN: usize = 4;

/// What the columns are about.
#[derive(Clone, Copy)]
pub struct Focus<'a> {
    pub run: &'a Run,
    /// The places of the fault.
    pub places: &'a [Place],
    /// The events whose absence is the fault.
    pub absences: &'a [Absence],
}

/// Adds these numbers, from the first one to the last.
fn push_range(numbers: &mut Vec<u32>, from: u32, to: u32) -> Result<(), AllocError> {
    for number in from..=to {
        numbers.push(number)?;
    }
    Ok(())
}

impl Focus<'_> {
    /// Returns whether a log has one of the places, or lacks one of the events.
    fn has(&self, log: &Log) -> bool {
        let mut places = self.places.iter();
        let mut absences = self.absences.iter();
        places.any(|place| place.proc == log.proc)
            || absences.any(|absence| absence.due.proc == log.proc)
    }

    /// Returns the numbers of a log's entries that are places of the fault.
    fn marks_of(&self, alloc: Global, log: &Log) -> Result<Vec<u32>, AllocError> {
        let mut marks = Vec::new(alloc);
        for place in self.places {
            if place.proc == log.proc {
                marks.push(place.at)?;
            }
        }
        marks.sort()?;
        Ok(marks)
    }

    /// Returns the numbers of a log's entries that are shown, and of some that it may not have.
    fn shown_of(&self, alloc: Global, log: &Log, marks: &[u32]) -> Result<Vec<u32>, AllocError> {
        let mut shown = Vec::new(alloc);
        for absence in self.absences {
            let Place { proc, at } = absence.due;
            if proc == log.proc {
                push_range(&mut shown, at.saturating_sub(AROUND), at.saturating_add(1))?;
            }
        }
        for at in marks {
            push_range(
                &mut shown,
                at.saturating_sub(AROUND),
                at.saturating_add(AROUND),
            )?;
        }
        shown.sort()?;
        shown.dedup();
        Ok(shown)
    }

    /// Returns what is shown of a log that has these places of the fault.
    fn lane_of(&self, alloc: Global, log: &Log, marks: &[u32]) -> Result<Lane, AllocError> {
        let shown = self.shown_of(alloc, log, marks)?;
        Lane::of(
            alloc,
            Excerpt {
                log,
                entries: shown.as_slice(),
                absences: self.absences,
            },
        )
    }
}

/// The text of a column in one row.
#[derive(Drop)]
struct Cell {
    row: u32,
    text: String,
}

/// The column of a log.
#[derive(Drop)]
struct Column {
    /// From the last row to the first.
    cells: Vec<Cell>,
    /// How many letters the widest cell has.
    width: usize,
}

fn closing(ending: Ending) -> &'static str {
    match ending {
        Ending::Standing => "    open",
        Ending::Failed => "    failed",
        Ending::Quiet => "    quiet",
    }
}

/// Returns how many entries are left out, and how many of them are changes.
fn gap_text(alloc: Global, gap: Gap) -> Result<String, AllocError> {
    let Gap { entries, changes } = gap;
    let noun = if entries == 1 { "entry" } else { "entries" };
    match changes {
        0 => format!(in alloc; "    .. {entries} {noun}"),
        1 => format!(in alloc; "    .. {entries} {noun}, 1 change"),
        _ => format!(in alloc; "    .. {entries} {noun}, {changes} changes"),
    }
}

/// Returns the text of the cell of a spot: the entry with its number and its mark, if any, how many entries are left out, or what is
/// missing.
fn cell_text(
    alloc: Global,
    version: Version,
    log: &Log,
    spot: &Spot,
    marks: &[u32],
) -> Result<String, AllocError> {
    match spot.what {
        What::LeftOut(gap) => return gap_text(alloc, gap),
        What::Lacking(event) => {
            let line = event.line(alloc)?;
            return format!(in alloc; "    -  {line}");
        }
        _ => {}
    }
    let at = spot.before.saturating_add(1);
    let mark = if marks.binary_search(&at).is_ok() {
        ">"
    } else {
        " "
    };
    match entry_of(log, at) {
        Some(entry) => {
            let line = line_of(alloc, version, entry)?;
            format!(in alloc; "  {mark} {at}  {line}")
        }
        None => Ok(String::new(alloc)),
    }
}

impl Column {
    fn add(&mut self, row: u32, text: String) -> Result<(), AllocError> {
        self.width = self.width.max(text.len());
        self.cells.push(Cell { row, text })?;
        Ok(())
    }

    /// Returns the column of a log: its process, what is shown of it, and in the last row how it ends.
    fn of(
        alloc: Global,
        version: Version,
        log: &Log,
        lane: &Lane,
        marks: &[u32],
        last: u32,
    ) -> Result<Column, AllocError> {
        let mut column = Column {
            cells: Vec::new(alloc),
            width: 0,
        };
        column.add(last, String::from_str(alloc, closing(log.ending))?)?;
        for spot in lane.spots.as_slice().iter().rev() {
            let text = cell_text(alloc, version, log, spot, marks)?;
            column.add(spot.slot.saturating_add(1), text)?;
        }
        let proc = log.proc.written(version);
        column.add(0, format!(in alloc; "log {proc}")?)?;
        Ok(column)
    }

    /// Takes the cell of this row from the column, if it has one. Rows are taken in order.
    fn take(&mut self, row: u32) -> Option<String> {
        if self.cells.last()?.row != row {
            return None;
        }
        let cell = self.cells.pop()?;
        Some(cell.text)
    }
}

/// Adds a row of the columns, if one of them has a cell in it.
fn push_row(text: &mut String, columns: &mut [Column], row: u32) -> Result<(), AllocError> {
    let mut spaces = INDENT;
    let mut is_any = false;
    for column in columns.iter_mut() {
        match column.take(row) {
            Some(cell) => {
                push_spaces(text, spaces)?;
                text.push_str(cell.as_str())?;
                spaces = column
                    .width
                    .saturating_sub(cell.len())
                    .saturating_add(BETWEEN);
                is_any = true;
            }
            None => spaces = spaces.saturating_add(column.width).saturating_add(BETWEEN),
        }
    }
    if is_any {
        text.push_str("\n")?;
    }
    Ok(())
}

fn push_rows(text: &mut String, columns: &mut [Column], last: u32) -> Result<(), AllocError> {
    for row in 0..=last {
        push_row(text, columns, row)?;
    }
    Ok(())
}

/// Adds as many columns side by side as fit, and the others below them.
fn push_columns(
    alloc: Global,
    text: &mut String,
    columns: Vec<Column>,
    last: u32,
    most: usize,
) -> Result<(), AllocError> {
    let mut side_by_side: Vec<Column> = Vec::new(alloc);
    let mut width = INDENT;
    for column in columns {
        if !side_by_side.is_empty() && width.saturating_add(column.width) > most {
            push_rows(text, side_by_side.as_mut_slice(), last)?;
            side_by_side.clear();
            width = INDENT;
        }
        width = width.saturating_add(column.width).saturating_add(BETWEEN);
        side_by_side.push(column)?;
    }
    push_rows(text, side_by_side.as_mut_slice(), last)
}

/// Returns the logs that have one of the places or lack one of the events, side by side: the places, marked with `>`, up to two entries before
/// and after each, and, without a number, what is missing. Each log goes from top to bottom, and a delivery is below its send if both are
/// shown. A row has at most `most` letters, unless a single column has more.
pub fn columns(alloc: Global, focus: &Focus<'_>, most: usize) -> Result<String, AllocError> {
    let run = focus.run;
    let mut marks = Vec::new(alloc);
    let mut lanes = Vec::new(alloc);
    for log in run.logs.as_slice() {
        if focus.has(log) {
            let of_log = focus.marks_of(alloc, log)?;
            lanes.push(focus.lane_of(alloc, log, of_log.as_slice())?)?;
            marks.push(of_log)?;
        }
    }
    let last = lay_out(alloc, lanes.as_mut_slice())?.saturating_add(1);
    let mut columns = Vec::new(alloc);
    for (lane, of_log) in lanes.iter().zip(marks.iter()) {
        if let Some(log) = log_of(run, lane.proc) {
            columns.push(Column::of(alloc, run.version, log, lane, of_log.as_slice(), last)?)?;
        }
    }
    let mut text = String::new(alloc);
    push_columns(alloc, &mut text, columns, last, most)?;
    Ok(text)
}
