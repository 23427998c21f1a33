//! The membership of a run as a picture: bands of configurations, without messages (docs/PROGRAM.md, "The membership").
use crate::bands::{Band, Bands, Row, most_letters as letters_in_front};
use crate::frame::{Frame, LINE, left_for, step_for};
use crate::picture::{close, opening};
use crate::shapes::{Point, push_label};
use crate::words::wrapped;
use std::alloc::{AllocError, Global};
use totem_evs::{Pending, Run};
use totem_explain::{Visit, Visits, visits_by};
use totem_names::ConfId;

/// How many configurations are drawn at most: the last ones.
const MOST: usize = 200;

/// The text below the picture that says how to read it, where it has one strip and where it has several.
const LEGEND: &str =
    "From left to right in an order that fits all logs. A band is a stay in a regular configuration, in one colour in all lanes. Below it is how many messages the process sent (s) and delivered (d) there and on the way to the next one.";

const LEGEND_OF_STRIPS: &str =
    "From left to right, and then on in the next strip, in an order that fits all logs. A band is a stay in a regular configuration, in one colour in all lanes. Below it, where it begins, is how many messages the process sent (s) and delivered (d) there and on the way to the next one.";

/// Returns the text below a picture.
fn legend_of(frame: &Frame) -> &'static str {
    if frame.strips() == 1 {
        LEGEND
    } else {
        LEGEND_OF_STRIPS
    }
}

/// Returns the title of a picture of so many configurations, after this headline.
fn title_of(alloc: Global, headline: &str, count: usize) -> Result<String, AllocError> {
    let mut text = String::from_str(alloc, headline)?;
    text.push_str(if headline.is_empty() { "" } else { " " })?;
    if count <= MOST {
        write!(
            text,
            "The membership of the run: {count} regular configurations."
        )?;
    } else {
        write!(
            text,
            "The membership of the run: the last {MOST} of {count} regular configurations."
        )?;
    }
    Ok(text)
}

/// Returns what is written below the band of a visit.
fn count_of(alloc: Global, visit: &Visit) -> Result<String, AllocError> {
    let sends = visit.sends;
    let deliveries = visit.deliveries;
    format!(in alloc; "{sends} s, {deliveries} d")
}

/// Returns how many letters the longest name or count has.
fn most_letters(alloc: Global, list: &[Visit]) -> Result<usize, AllocError> {
    let mut most = 0usize;
    for visit in list {
        let conf = visit.conf;
        most = most.max(format!(in alloc; "{conf}")?.len());
        most = most.max(count_of(alloc, visit)?.len());
    }
    Ok(most)
}

/// A configuration and its column.
#[derive(Clone, Copy)]
struct Column {
    conf: ConfId,
    slot: u32,
}

/// Returns the configurations in ascending order, each with its column.
fn columns_of(alloc: Global, order: &[ConfId]) -> Result<Vec<Column>, AllocError> {
    let mut columns = Vec::new(alloc);
    let mut slot = 0u32;
    for conf in order {
        columns.push(Column { conf: *conf, slot })?;
        slot = slot.saturating_add(1);
    }
    columns.sort_by_key(|column| column.conf)?;
    Ok(columns)
}

/// Returns the column of a configuration, if it is drawn.
fn slot_of(columns: &[Column], conf: &ConfId) -> Option<u32> {
    let index = columns.partition_point(|column| column.conf.is_below(conf));
    let column = columns.get(index).filter(|column| column.conf.is(conf))?;
    Some(column.slot)
}

/// Returns the bands of a log, each of which extends to the next one.
fn bands_of(
    alloc: Global,
    visits: &[Visit],
    columns: &[Column],
    slots: u32,
) -> Result<Vec<Band>, AllocError> {
    let mut bands: Vec<Band> = Vec::new(alloc);
    for (index, visit) in visits.iter().enumerate() {
        let from = slot_of(columns, &visit.conf).unwrap_or(0);
        let end = match visits.get(index.saturating_add(1)) {
            Some(next) => slot_of(columns, &next.conf).unwrap_or(slots),
            None if visit.has_failed() => from.saturating_add(1),
            None => slots,
        };
        bands.push(Band {
            conf: visit.conf,
            from,
            to: end.saturating_sub(1).max(from),
        })?;
    }
    Ok(bands)
}

/// Returns the lanes of all logs, with the numbers of their pending deliveries.
fn rows_of(
    alloc: Global,
    run: &Run,
    list: &[Visit],
    columns: &[Column],
    slots: u32,
    pending: &[Pending],
) -> Result<Vec<Row>, AllocError> {
    let mut rows = Vec::new(alloc);
    for log in run.logs.as_slice() {
        let visits = visits_by(list, log.proc);
        rows.push(Row {
            proc: log.proc,
            ending: log.ending,
            pending: pending.iter().filter(|one| one.proc == log.proc).count(),
            bands: bands_of(alloc, visits, columns, slots)?,
        })?;
    }
    Ok(rows)
}

/// Adds the counts below the bands of these visits, where they begin.
fn push_counts(
    alloc: Global,
    text: &mut String,
    frame: &Frame,
    bands: &Bands,
    list: &[Visit],
) -> Result<(), AllocError> {
    for (number, row) in bands.rows.iter().enumerate() {
        let y = frame.y(number).saturating_add(26);
        for (band, visit) in row.bands.iter().zip(visits_by(list, row.proc)) {
            if band.begins_in(frame) {
                let x = frame.middle(band.from);
                push_label(text, Point { x, y }, count_of(alloc, visit)?.as_str())?;
            }
        }
    }
    Ok(())
}

/// Draws the lanes of these visits in strips.
fn push_strips(
    alloc: Global,
    text: &mut String,
    run: &Run,
    frame: &Frame,
    list: &[Visit],
    bands: &Bands,
) -> Result<(), AllocError> {
    bands.push_textures(text)?;
    for number in 0..frame.strips() {
        let strip = frame.strip(number);
        bands.push(alloc, text, run.version, &strip)?;
        bands.push_names(alloc, text, &strip)?;
        push_counts(alloc, text, &strip, bands, list)?;
    }
    Ok(())
}

/// Draws the membership of a run as a picture in SVG: its last 200 regular configurations, in strips that fit a screen. The title begins with
/// this headline, and in front of each lane is how many deliveries are pending there.
pub fn draw_membership(
    alloc: Global,
    run: &Run,
    headline: &str,
    pending: &[Pending],
) -> Result<String, AllocError> {
    let mut visits = Visits::of(alloc, run)?;
    let order = visits.order(alloc)?;
    let mut list = visits.list;
    let title = title_of(alloc, headline, order.len())?;
    let last = order.as_slice().get(order.len().saturating_sub(MOST)..);
    let columns = columns_of(alloc, last.unwrap_or(&[]))?;
    list.retain(|visit| slot_of(columns.as_slice(), &visit.conf).is_some());
    let list = list.as_slice();
    let frame = Frame {
        left: left_for(letters_in_front(alloc, run)?),
        top: LINE.saturating_mul(2),
        lanes: run.logs.as_slice().len(),
        first: 0,
        slots: u32::try_from(columns.len()).unwrap_or(u32::MAX),
        step: step_for(most_letters(alloc, list)?),
    };
    let rows = rows_of(alloc, run, list, columns.as_slice(), frame.slots, pending)?;
    let bands = Bands::of(alloc, rows)?;
    let whole = frame.around_strips();
    let above = wrapped(alloc, title.as_str())?;
    let below = wrapped(alloc, legend_of(&frame))?;
    let (above, below) = (above.as_slice(), below.as_slice());
    let mut text = opening(alloc, &whole, title.as_str(), above, below)?;
    push_strips(alloc, &mut text, run, &frame, list, &bands)?;
    close(&mut text, &whole, below)?;
    Ok(text)
}

/// Draws the membership of a run as a picture in SVG.
pub fn draw_views(alloc: Global, run: &Run) -> Result<String, AllocError> {
    draw_membership(alloc, run, "", &[])
}
