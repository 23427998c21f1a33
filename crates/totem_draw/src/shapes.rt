//! The shapes of a picture, as elements of SVG. Their texts have digits, letters, spaces and punctuation that XML needs no escapes for.
use std::alloc::AllocError;

/// A point of a picture.
#[derive(Clone, Copy, PartialEq, Eq)]
pub struct Point {
    pub x: u32,
    pub y: u32,
}

/// The colours of configurations, which colour-blind people can tell apart.
const COLOURS: [&str; PLAIN_COUNT] = [
    "#56b4e9", "#e69f00", "#009e73", "#f0e442", "#cc79a7", "#0072b2",
];

/// The textures that lie over a colour where the colours alone are too few: lines in a square of 8 pixels.
const TEXTURES: [&str; 5] = ["M0 8L8 0", "M0 0L8 8", "M0 4h8", "M4 0v8", "M0 4h8M4 0v8"];

/// How many fills there are: each colour plain, and then each with each texture.
pub const FILL_COUNT: usize = 36;

/// How many fills are plain colours.
pub const PLAIN_COUNT: usize = 6;

/// Adds the textures, so that bands can name them.
pub fn push_textures(text: &mut String) -> Result<(), AllocError> {
    text.push_str("<defs>\n")?;
    for (number, lines) in TEXTURES.iter().enumerate() {
        write!(
            text,
            "<pattern id='texture{number}' width='8' height='8' patternUnits='userSpaceOnUse'><path d='{lines}' stroke='#000000' stroke-opacity='0.4'/></pattern>\n"
        )?;
    }
    text.push_str("</defs>\n")
}

/// Adds a line of text that starts at a point.
pub fn push_words(text: &mut String, at: Point, words: &str) -> Result<(), AllocError> {
    let Point { x, y } = at;
    write!(text, "<text x='{x}' y='{y}'>{words}</text>\n")
}

/// Adds a short text centred at a point, with a white edge, which covers what was drawn there before.
pub fn push_label(text: &mut String, at: Point, words: &str) -> Result<(), AllocError> {
    let Point { x, y } = at;
    write!(
        text,
        "<text x='{x}' y='{y}' text-anchor='middle' font-size='10' paint-order='stroke' stroke='#ffffff' stroke-width='3'>{words}</text>\n"
    )
}

/// Adds the band of a configuration with the n-th fill, which is dashed if that is transitional.
pub fn push_band(
    text: &mut String,
    at: Point,
    width: u32,
    n: usize,
    is_transitional: bool,
) -> Result<(), AllocError> {
    let Point { x, y } = at;
    let colour = COLOURS.get(n % PLAIN_COUNT).copied().unwrap_or("#56b4e9");
    let edge = if is_transitional {
        " stroke='#000000' stroke-dasharray='4 3'"
    } else {
        ""
    };
    write!(
        text,
        "<rect x='{x}' y='{y}' width='{width}' height='28' fill='{colour}' fill-opacity='0.4'{edge}/>\n"
    )?;
    match (n / PLAIN_COUNT).checked_sub(1) {
        Some(texture) => write!(
            text,
            "<rect x='{x}' y='{y}' width='{width}' height='28' fill='url(#texture{texture})'/>\n"
        ),
        None => Ok(()),
    }
}

/// Adds the line of a message through these points, from its send to a delivery; it is dashed where there is none.
pub fn push_way(text: &mut String, points: &[Point], is_dashed: bool) -> Result<(), AllocError> {
    text.push_str("<polyline points='")?;
    let mut between = "";
    for Point { x, y } in points {
        write!(text, "{between}{x},{y}")?;
        between = " ";
    }
    let dashes = if is_dashed {
        " stroke-dasharray='5 4'"
    } else {
        ""
    };
    write!(text, "' fill='none' stroke='#555555'{dashes}/>\n")
}

/// Adds a dashed ring behind a lane, for deliveries that may still happen.
pub fn push_ring_behind(text: &mut String, at: Point) -> Result<(), AllocError> {
    let Point { x, y } = at;
    write!(
        text,
        "<circle cx='{x}' cy='{y}' r='6' fill='#ffffff' stroke='#555555' stroke-dasharray='3 2'/>\n"
    )
}

/// Adds a dot, for a send.
pub fn push_dot(text: &mut String, at: Point) -> Result<(), AllocError> {
    let Point { x, y } = at;
    write!(text, "<circle cx='{x}' cy='{y}' r='6' fill='#000000'/>\n")
}

/// Adds a ring, for a delivery.
pub fn push_ring(text: &mut String, at: Point) -> Result<(), AllocError> {
    let Point { x, y } = at;
    write!(
        text,
        "<circle cx='{x}' cy='{y}' r='6' fill='#ffffff' stroke='#000000' stroke-width='2'/>\n"
    )
}

/// Adds a dashed ring, for an event that is missing.
pub fn push_missing(text: &mut String, at: Point) -> Result<(), AllocError> {
    let Point { x, y } = at;
    write!(
        text,
        "<circle cx='{x}' cy='{y}' r='8' fill='#ffffff' stroke='#b34700' stroke-width='2' stroke-dasharray='3 2'/>\n"
    )
}

/// Adds a bar, for a change of the configuration.
pub fn push_bar(text: &mut String, at: Point) -> Result<(), AllocError> {
    let Point { x, y } = at;
    let top = y.saturating_sub(14);
    write!(
        text,
        "<path d='M{x} {top}v28' stroke='#000000' stroke-width='4'/>\n"
    )
}

/// Adds a cross, for a failure.
pub fn push_cross(text: &mut String, at: Point) -> Result<(), AllocError> {
    let Point { x, y } = at;
    let left = x.saturating_sub(7);
    let top = y.saturating_sub(7);
    write!(
        text,
        "<path d='M{left} {top}l14 14m0 -14l-14 14' stroke='#000000' stroke-width='3'/>\n"
    )
}

/// Adds the red ring of a place with its number.
pub fn push_mark(text: &mut String, at: Point, number: usize) -> Result<(), AllocError> {
    let Point { x, y } = at;
    let above = y.saturating_sub(18);
    write!(
        text,
        "<circle cx='{x}' cy='{y}' r='12' fill='none' stroke='#d55e00' stroke-width='3'/>\n<text x='{x}' y='{above}' text-anchor='middle' font-weight='bold' fill='#b34700'>{number}</text>\n"
    )
}
