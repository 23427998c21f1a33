//! The line at which a script is refused, and what is expected there (docs/PROTOCOL.md, "Scripts").
use std::alloc::{AllocError, Global};
use totem_script::ScriptFault;

/// The greatest number of bytes of a line that are shown.
const SHOWN: usize = 72;

/// Returns what is expected where a script has this fault.
fn wanted(fault: ScriptFault) -> &'static str {
    match fault {
        ScriptFault::Header => {
            "A script begins with the line `totem-script 1` or `totem-script 2`."
        }
        ScriptFault::Word => {
            "Lines look like these: `ring 4.1 1 2 3`, `submit 1 a hello` (a for agreed, s for safe), `run 7`, `drop 2`, `repeat 2`, `cut 1 2 / 3`, `join`, `timer 1`, `crash 1`, from version 2 on `return 1`, or `end`, with one space between its words."
        }
        ScriptFault::Number => {
            "Numbers have no leading zeros. Processes are 1 to 65535, counts and places 1 to 100000."
        }
        ScriptFault::Order => { "One or more `ring` lines come first, before all other commands." }
        ScriptFault::Members => {
            "The members of a ring are in ascending order and in no other ring, and the least is its representative. Other commands name processes of the script, and a cut names each of them once."
        }
        ScriptFault::Place => {
            "This number is greater than the number of packets on their way. Or, for `return`: the process has not crashed, or has no life or ring number left."
        }
        ScriptFault::End => "Nothing follows the line `end`.",
        ScriptFault::Truncated => "Each line ends with a line break, and the last one is `end`.",
        ScriptFault::TooMany => {
            "A script has at most 32 processes (each life counts as one) and at most 65,536 bytes, and each log has at most 1,000,000 entries."
        }
        ScriptFault::Read | ScriptFault::Memory => "",
    }
}

/// Adds the line with this number, counted from 1, in printable form; of a long line only the first bytes.
fn push_line(text: &mut String, script: &[u8], line: u32) -> Result<(), AllocError> {
    let mut current = 1u32;
    let mut shown = 0usize;
    for byte in script {
        if *byte == b'\n' {
            current = current.saturating_add(1);
        } else if current == line && shown < SHOWN {
            shown += 1;
            let is_plain = (b' '..=b'~').contains(byte);
            text.push(if is_plain { char::from(*byte) } else { '?' })?;
        }
    }
    Ok(())
}

/// Returns the explanation of a script's refusal: the line, and what is expected there. It is empty if the script could
/// not be read or memory was refused.
pub fn explain_line(
    alloc: Global,
    fault: ScriptFault,
    line: u32,
    script: &[u8],
) -> Result<String, AllocError> {
    let wanted = wanted(fault);
    if wanted.is_empty() {
        return Ok(String::new(alloc));
    }
    let mut text = format!(in alloc; "line {line}:\n  ")?;
    push_line(&mut text, script, line)?;
    text.push_str(format!(in alloc; "\n{wanted}\n")?.as_str())?;
    Ok(text)
}
