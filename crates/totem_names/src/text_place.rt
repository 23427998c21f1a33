//! Where in its text a source is, so that people can find what is wrong there.

/// How many bytes after the last one are shown.
const REST: usize = 40;

/// How many bytes of a line are kept when a buffer is refilled.
pub(crate) const FRONT: usize = 128;

/// How many bytes are counted at a time: few enough for counters of one byte, many of which a processor adds in parallel.
const PART: usize = 128;

/// The place of the byte that a source was asked for last, or the place after its last byte if it had ended; and the line there, as far
/// as the source has it at hand.
#[derive(Clone, Copy, Debug)]
pub struct TextPlace<'a> {
    /// The number of its line, from 1. The byte that ends a line belongs to that line.
    pub line: u64,
    /// The number of the byte in its line, from 1.
    pub column: u64,
    /// Bytes of its line that were returned before `read`, 256 at most.
    pub front: &'a [u8],
    /// Bytes of its line up to itself. There are none if the source had ended.
    pub read: &'a [u8],
    /// Bytes of its line after it, 40 at most.
    pub rest: &'a [u8],
}

/// What a source returned before the bytes that it has at hand.
#[derive(Clone, Copy)]
pub(crate) struct Passed {
    /// How many lines ended.
    lines: u64,
    /// The number of bytes of the line that has not ended.
    bytes: u64,
}

fn is_end(byte: &u8) -> bool {
    *byte == b'\n'
}

/// Returns how many lines end among these bytes.
fn ends_in(bytes: &[u8]) -> u64 {
    let mut count = 0u64;
    for part in bytes.chunks(PART) {
        let mut few = 0u8;
        for byte in part {
            few = few.wrapping_add(u8::from(is_end(byte)));
        }
        count = count.wrapping_add(u64::from(few));
    }
    count
}

/// Returns the bytes after the last end of a line, or `None` if no line ends.
fn behind_last_end(bytes: &[u8]) -> Option<&[u8]> {
    let mut behind = bytes.len();
    for part in bytes.rchunks(PART) {
        let from = behind.saturating_sub(part.len());
        if ends_in(part) > 0 {
            let at = part.iter().rposition(|byte| is_end(byte))?;
            return bytes.get(from.saturating_add(at).saturating_add(1)..);
        }
        behind = from;
    }
    None
}

impl Passed {
    pub(crate) fn nothing() -> Passed {
        Passed { lines: 0, bytes: 0 }
    }

    /// Returns what was passed once the source has returned these bytes too.
    pub(crate) fn and(self, given: &[u8]) -> Passed {
        match behind_last_end(given) {
            None => Passed {
                lines: self.lines,
                bytes: self.bytes.saturating_add(given.len() as u64),
            },
            Some(tail) => Passed {
                lines: self.lines.saturating_add(ends_in(given)),
                bytes: tail.len() as u64,
            },
        }
    }
}

/// Keeps the last bytes of the line that `given` does not end. `front` has those kept before, and space for twice `FRONT`.
pub(crate) fn keep_front(front: &mut Vec<u8>, given: &[u8]) {
    let tail = match behind_last_end(given) {
        Some(tail) => {
            front.clear();
            tail
        }
        None => given,
    };
    let tail = tail.get(tail.len().saturating_sub(FRONT)..).unwrap_or(tail);
    let excess = (front.len() + tail.len()).saturating_sub(2 * FRONT);
    front.drain(..excess.min(front.len()));
    let _ = front.extend_from_slice(tail);
}

/// Returns the place of the last byte of `given`. `passed` was returned before it, `front` is kept of its line, `rest` follows.
pub(crate) fn place_of<'a>(
    passed: Passed,
    front: &'a [u8],
    given: &'a [u8],
    rest: &'a [u8],
) -> TextPlace<'a> {
    let before = given.get(..given.len().saturating_sub(1)).unwrap_or(given);
    let passed = passed.and(before);
    let (front, read) = match behind_last_end(before) {
        None => (front, given),
        Some(tail) => (
            &front[..0],
            given
                .get(before.len().saturating_sub(tail.len())..)
                .unwrap_or(given),
        ),
    };
    let ends = given.last().is_some_and(|byte| is_end(byte));
    let rest = rest.get(..rest.len().min(REST)).unwrap_or(rest);
    let length = rest
        .iter()
        .position(|byte| is_end(byte))
        .unwrap_or(rest.len());
    TextPlace {
        line: passed.lines.saturating_add(1),
        column: passed.bytes.saturating_add(1),
        front,
        read,
        rest: if ends {
            &rest[..0]
        } else {
            rest.get(..length).unwrap_or(rest)
        },
    }
}
