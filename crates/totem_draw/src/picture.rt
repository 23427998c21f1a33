//! A whole picture (docs/PROGRAM.md, "Pictures").
use crate::bands::{Bands, most_letters as letters_in_front};
use crate::choice::{is_small, lanes_of};
use crate::events::{most_letters, push_events};
use crate::frame::{Frame, LINE, MARGIN, left_for, step_for};
use crate::legend::legend_of;
use crate::lines::push_lines;
use crate::marks::lines_of;
use crate::membership::draw_membership;
use crate::shapes::{Point, push_words};
use crate::subject::Subject;
use crate::words::wrapped;
use std::alloc::{AllocError, Global};
use totem_evs::{Fault, Pending, Run};
use totem_explain::{Lane, Reason, lay_out, rule_of};

/// Adds lines of text, one below the other. The height is that of the first one's baseline.
fn push_text(text: &mut String, from: u32, lines: &[String]) -> Result<(), AllocError> {
    let mut y = from;
    for line in lines {
        push_words(text, Point { x: MARGIN, y }, line.as_str())?;
        y = y.saturating_add(LINE);
    }
    Ok(())
}

/// Adds everything in the lanes.
fn push_lanes(
    alloc: Global,
    text: &mut String,
    frame: &Frame,
    lanes: &[Lane],
    subject: &Subject<'_>,
) -> Result<(), AllocError> {
    let run = subject.run;
    let bands = Bands::of_lanes(alloc, frame, lanes)?;
    bands.push(alloc, text, run.version, frame)?;
    push_lines(alloc, text, frame, lanes, subject.pending)?;
    bands.push_names(alloc, text, frame)?;
    push_events(alloc, text, frame, lanes, subject)
}

/// Returns the beginning of the picture, which names and describes it for people who cannot see it, with the text above the lanes.
pub fn opening(
    alloc: Global,
    frame: &Frame,
    title: &str,
    above: &[String],
    below: &[String],
) -> Result<String, AllocError> {
    let width = frame.width();
    let height = frame.line_below(u32::try_from(below.len()).unwrap_or(u32::MAX));
    let mut text = format!(in alloc;
        "<svg xmlns='http://www.w3.org/2000/svg' viewBox='0 0 {width} {height}' width='{width}' height='{height}' role='img' aria-labelledby='title description' font-family='sans-serif' font-size='12'>\n<title id='title'>{title}</title>\n<desc id='description'>"
    )?;
    for line in below {
        write!(text, "{line}\n")?;
    }
    text.push_str("</desc>\n<rect width='100%' height='100%' fill='#ffffff'/>\n")?;
    push_text(&mut text, LINE.saturating_add(4), above)?;
    Ok(text)
}

/// Adds the text below the lanes, and the end of the picture.
pub fn close(text: &mut String, frame: &Frame, below: &[String]) -> Result<(), AllocError> {
    push_text(text, frame.line_below(0), below)?;
    text.push_str("</svg>\n")
}

/// Adds lines of text, those that are too long in several.
fn push_wrapped(alloc: Global, list: &mut Vec<String>, text: &str) -> Result<(), AllocError> {
    for line in text.lines() {
        for part in wrapped(alloc, line)? {
            list.push(part)?;
        }
    }
    Ok(())
}

fn draw(alloc: Global, subject: &Subject<'_>) -> Result<String, AllocError> {
    let mut lanes = lanes_of(alloc, subject)?;
    let slots = lay_out(alloc, lanes.as_mut_slice())?;
    let above = wrapped(alloc, subject.title)?;
    let mut below = lines_of(alloc, subject.run, subject.marked)?;
    push_wrapped(alloc, &mut below, subject.why)?;
    let legend = legend_of(alloc, lanes.as_slice(), !subject.pending.is_empty())?;
    push_wrapped(alloc, &mut below, legend.as_str())?;
    let lines = u32::try_from(above.len()).unwrap_or(u32::MAX);
    let frame = Frame {
        left: left_for(letters_in_front(alloc, subject.run)?),
        top: LINE.saturating_mul(lines.saturating_add(1)),
        lanes: lanes.len(),
        first: 0,
        slots,
        step: step_for(most_letters(alloc, lanes.as_slice())?),
    };
    let mut text = opening(
        alloc,
        &frame,
        subject.title,
        above.as_slice(),
        below.as_slice(),
    )?;
    push_lanes(alloc, &mut text, &frame, lanes.as_slice(), subject)?;
    close(&mut text, &frame, below.as_slice())?;
    Ok(text)
}

/// Returns the title of the picture of the fault with this number, of so many.
fn title_of(
    alloc: Global,
    fault: &Fault,
    number: usize,
    count: usize,
) -> Result<String, AllocError> {
    let spec = fault.spec;
    let rule = rule_of(spec);
    if count == 1 {
        return format!(in alloc; "No: the run breaks specification {spec}. It requires: {rule}");
    }
    format!(in alloc;
        "No: the run breaks specification {spec}, fault {number} of {count}. It requires: {rule}"
    )
}

/// Draws a fault of a run as a picture in SVG: the run around its places, which are marked by their numbers, and around the places at which
/// something is missing. A small run is drawn whole. Faults are counted from 1; returns `None` if the run has no such fault.
pub fn draw_no(
    alloc: Global,
    run: &Run,
    faults: &[Fault],
    number: usize,
) -> Result<Option<String>, AllocError> {
    let Some(fault) = faults.get(number.saturating_sub(1)) else {
        return Ok(None);
    };
    let title = title_of(alloc, fault, number, faults.len())?;
    let places = fault.places.as_slice();
    let Reason {
        text: why,
        absences,
    } = Reason::of(alloc, run, fault)?;
    let text = draw(
        alloc,
        &Subject {
            run,
            title: title.as_str(),
            places,
            marked: places,
            absences: absences.as_slice(),
            why: why.as_str(),
            pending: &[],
        },
    )?;
    Ok(Some(text))
}

/// The title of the picture of a yes.
const YES: &str = "Yes: the run meets specifications 1 to 7.";

/// Draws a run that meets the specifications as a picture in SVG, with the pending deliveries. A small run is drawn whole. Of any
/// other, the membership is drawn.
pub fn draw_yes(alloc: Global, run: &Run, pending: &[Pending]) -> Result<String, AllocError> {
    if !is_small(run) {
        return draw_membership(alloc, run, YES, pending);
    }
    draw(
        alloc,
        &Subject {
            run,
            title: YES,
            places: &[],
            marked: &[],
            absences: &[],
            why: "",
            pending,
        },
    )
}
