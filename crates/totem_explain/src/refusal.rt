//! A text that could not be read, shown at the place where it is refused, with what is expected there (docs/SPECIFICATIONS.md, "Run text").
use std::alloc::{AllocError, Global};
use totem_evs::RunFault;
use totem_names::TextPlace;

/// How many bytes of a line are shown before the refused one.
const BEFORE: usize = 72;

/// The beginnings of lines, each with what may follow it.
const BEHIND: [(&[u8], &str); 5] = [
    (
        b"log ",
        "`log` is followed by a process: `log 3`, or `log 3:1` with its life from version 2 on.",
    ),
    (
        b"conf ",
        "`conf` is followed by a configuration and its members, with one space before each: `conf r4.1 1 2 3`, `conf t8.1/1 1 2`, or `conf r4.1 1:1 2:1` from version 2 on.",
    ),
    (
        b"send ",
        "`send` is followed by a regular configuration, the service `a` or `s`, and a message: `send r4.1 a 4.1#7`.",
    ),
    (
        b"dlv ",
        "`dlv` is followed by a configuration and a message: `dlv r4.1 4.1#7`.",
    ),
    (
        b"fail ",
        "`fail` is followed by the configuration in which the process failed: `fail r4.1`.",
    ),
];

/// The text for a process without its life.
const WANT_OF_A_LIFE: &str =
    "This process has no life: from version 2 on each is written with its life, as in `2:1`. `tools/logs join --lives` adds lives to members.\n";

/// What is said of the log of one process.
const ONE_LOG: &str =
    "This looks like the log of one process. `tools/logs join` makes a run of a folder of such logs.\n";

/// Texts that are no runs, by what their first line begins with, and what to do about each.
const MISTAKEN: [(&[u8], &str); 9] = [
    (b"conf ", ONE_LOG),
    (b"send ", ONE_LOG),
    (b"dlv ", ONE_LOG),
    (b"fail ", ONE_LOG),
    (
        b"totem-script",
        "This is a script. `totem sim` makes a run of it, and `totem explain --script` shows where a script is refused.\n",
    ),
    (
        b"totem-cert",
        "This is a certificate. It stands after the text of its run, for `totem check`.\n",
    ),
    (
        &[0x1f, 0x8b],
        "This is compressed by gzip: `gzip -dc FILE | totem explain` reads what it has.\n",
    ),
    (
        &[0xfd, b'7', b'z', b'X', b'Z'],
        "This is compressed by xz: `xz -dc FILE | totem explain` reads what it has.\n",
    ),
    (
        &[0xef, 0xbb, 0xbf],
        "The text begins with a byte order mark, which is no part of a run: save it without one, or read it by `tail -c +4 FILE`.\n",
    ),
];

/// What is said of a line that ends as on other systems.
const CARRIAGE_RETURN: &str =
    "The line ends with a carriage return and a line feed. Here lines end with a line feed alone: `tr -d '\\r' < FILE` leaves the others out.\n";

/// What is said where there is no text at all.
const NOTHING: &str = "Nothing came: did the command before this one fail?\n";

/// Returns what a table has for a line with this beginning, or `None` if it has nothing.
fn looked_up(table: &[(&'static [u8], &'static str)], line: &[u8]) -> Option<&'static str> {
    let (_, words) = table.iter().find(|(front, _)| line.starts_with(front))?;
    Some(*words)
}

/// Returns what to do about a text that is no run, by its first line; nothing if that is not known.
fn hint_of(line: &[u8]) -> &'static str {
    looked_up(&MISTAKEN, line).unwrap_or("")
}

/// Returns what to do about the text that is refused at this place, if it is taken for a run by mistake.
fn hint(
    alloc: Global,
    fault: &RunFault,
    place: &TextPlace<'_>,
) -> Result<&'static str, AllocError> {
    if place.read.ends_with(b"\r") && place.rest.is_empty() {
        return Ok(CARRIAGE_RETURN);
    }
    if matches!(fault, RunFault::Truncated) && place.line == 1 && place.column == 1 {
        return Ok(NOTHING);
    }
    if !matches!(fault, RunFault::Header) {
        return Ok("");
    }
    let mut line = Vec::new(alloc);
    line.extend_from_slice(place.front)?;
    line.extend_from_slice(place.read)?;
    line.extend_from_slice(place.rest)?;
    Ok(hint_of(line.as_slice()))
}

/// Returns what may follow this beginning of a line.
fn behind(line: &[u8]) -> &'static str {
    looked_up(&BEHIND, line).unwrap_or(
        "A line is `log`, `conf`, `send`, `dlv` or `fail` with what follows it, or `open`, `failed`, `quiet` (from version 3 on) or `end` alone.",
    )
}

/// Returns the bytes before the number at the end, or `None` if there is no number.
fn before_number(bytes: &[u8]) -> Option<&[u8]> {
    let last = bytes.iter().rposition(|byte| !byte.is_ascii_digit())?;
    let front = bytes.get(..last.saturating_add(1))?;
    if front.len() < bytes.len() {
        Some(front)
    } else {
        None
    }
}

/// Returns whether a process was read last and this byte was refused where the colon of its life is expected. In texts without
/// lives, these are the bytes that follow a process.
fn lacks_life(line: &[u8], refused: u8) -> bool {
    let is_behind = refused == b' ' || refused == b'\n';
    is_behind
        && before_number(line).is_some_and(|front| {
            front.ends_with(b" ") && (front.starts_with(b"conf ") || front == b"log ".as_slice())
        })
}

/// Returns what is expected where a text is refused, after this beginning of the line; nothing if the text itself was not refused.
fn wanted(alloc: Global, fault: &RunFault, line: &[u8]) -> Result<String, AllocError> {
    let text = match fault {
        RunFault::Header =>
            "The text of a run begins with a line `totem-run 1`, `totem-run 2` or `totem-run 3`.",
        RunFault::Word => behind(line),
        RunFault::Number => {
            "A number has no leading zeros. Processes and lives are 1 to 65535, the numbers of rings and messages 1 to 4294967295."
        }
        RunFault::Order =>
            "The process that ends here is not greater than that of the log before it. Logs are in ascending order of their processes.",
        RunFault::Members =>
            "The member that ends here is not greater than the one before it. Members are in ascending order, one life of each.",
        RunFault::End => {
            "A log whose last entry is `fail` ends with the line `failed`, any other with `open`, or from version 3 on with `quiet`; and nothing follows the line `end`."
        }
        RunFault::Truncated => {
            "The text ends here. Each log ends with the line `open` or `failed`, or from version 3 on with `quiet`, and the text with the line `end`."
        }
        RunFault::TooMany => {
            "A run has at most 32 logs, a configuration at most 32 members, and a log at most 1,000,000 entries."
        }
        RunFault::MissingLog(proc) => {
            return format!(in alloc;
                "Process {proc} is a member of a configuration, but has no log here. docs/OWN-LOGS.md says what to do about a lost log.\n"
            );
        }
        RunFault::Read | RunFault::Memory => return Ok(String::new(alloc)),
    };
    format!(in alloc; "{text}\n")
}

/// Adds a byte in readable form: `?` if it can't be printed.
fn push_byte(text: &mut String, byte: u8) -> Result<(), AllocError> {
    let shown = if (b' '..=b'~').contains(&byte) {
        char::from(byte)
    } else {
        '?'
    };
    text.push(shown)
}

fn push_bytes(text: &mut String, bytes: &[u8]) -> Result<(), AllocError> {
    for byte in bytes {
        push_byte(text, *byte)?;
    }
    Ok(())
}

/// Returns at most this many bytes from the end of a list.
fn last_of(bytes: &[u8], most: usize) -> &[u8] {
    bytes
        .get(bytes.len().saturating_sub(most)..)
        .unwrap_or(bytes)
}

/// Adds what the line has before the refused byte: its last bytes, with dots before them if there are more.
fn push_front(text: &mut String, front: &[u8], read: &[u8], column: u64) -> Result<(), AllocError> {
    let read = last_of(read, BEFORE);
    let front = last_of(front, BEFORE.saturating_sub(read.len()));
    if (front.len() as u64).saturating_add(read.len() as u64) < column.saturating_sub(1) {
        text.push_str("...")?;
    }
    push_bytes(text, front)?;
    push_bytes(text, read)
}

/// Returns the line of a place, with a caret below it under the refused byte.
fn drawing(alloc: Global, place: &TextPlace<'_>) -> Result<String, AllocError> {
    let mut line = String::new(alloc);
    let (read, last) = match place.read.split_last() {
        Some((last, read)) => (read, Some(*last)),
        None => (place.read, None),
    };
    push_front(&mut line, place.front, read, place.column)?;
    let width = line.as_str().len();
    if let Some(byte) = last {
        if byte != b'\n' {
            push_byte(&mut line, byte)?;
        }
    }
    push_bytes(&mut line, place.rest)?;
    line.push_str("\n  ")?;
    for _ in 0..width {
        line.push(' ')?;
    }
    line.push_str("^\n")?;
    Ok(line)
}

/// Returns the place where the text is refused, with its line.
fn shown(alloc: Global, place: &TextPlace<'_>) -> Result<String, AllocError> {
    let line = place.line;
    let column = place.column;
    let drawing = drawing(alloc, place)?;
    format!(in alloc; "line {line}, column {column}:\n  {drawing}")
}

/// Returns whether the fault is in the byte that was read last.
fn is_of_a_byte(fault: &RunFault) -> bool {
    !matches!(
        fault,
        RunFault::MissingLog(_) | RunFault::Read | RunFault::Memory
    )
}

/// Returns whether the text is refused because a process has no life where lives are written.
fn is_for_want_of_a_life(
    alloc: Global,
    fault: &RunFault,
    place: &TextPlace<'_>,
) -> Result<bool, AllocError> {
    let (RunFault::Word, Some((refused, read))) = (fault, place.read.split_last()) else {
        return Ok(false);
    };
    let mut line = Vec::new(alloc);
    line.extend_from_slice(place.front)?;
    line.extend_from_slice(read)?;
    Ok(lacks_life(line.as_slice(), *refused))
}

/// Returns the explanation of a text that is no run: its line with a caret under the refused byte, if the source knew the place,
/// and what is expected there. A failed source and out of memory have no such explanation.
pub fn explain_refusal(
    alloc: Global,
    fault: &RunFault,
    place: Option<TextPlace<'_>>,
) -> Result<String, AllocError> {
    let Some(place) = place.filter(|_| is_of_a_byte(fault)) else {
        return wanted(alloc, fault, b"");
    };
    let begun = if place.front.is_empty() {
        place.read
    } else {
        place.front
    };
    let wanted = wanted(alloc, fault, begun)?;
    let mut text = shown(alloc, &place)?;
    text.push_str(wanted.as_str())?;
    text.push_str(hint(alloc, fault, &place)?)?;
    if is_for_want_of_a_life(alloc, fault, &place)? {
        text.push_str(WANT_OF_A_LIFE)?;
    }
    Ok(text)
}
