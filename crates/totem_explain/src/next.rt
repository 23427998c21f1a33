//! What to do after a no: which mistake of a recording to rule out, and what else to ask (docs/OWN-LOGS.md, "From a folder to a verdict").
use crate::event::place_name;
use crate::lookup::message_at;
use std::alloc::{AllocError, Global};
use totem_evs::{Fault, Run, SpecNo};

/// Returns the likeliest mistake of a recording where a specification is broken, with the option of `tools/logs join` that helps.
fn mistake(spec: SpecNo) -> &'static str {
    match spec {
        SpecNo::Cycle | SpecNo::Misplaced | SpecNo::Order => {
            "was each line written when its callback began?"
        }
        SpecNo::Unsent => "sends recorded when taken? --own-sends. A lost tail? --torn, --trim.",
        SpecNo::Twice => "ring numbers that began again? Two lives in one log? --lives.",
        SpecNo::End => "was more to come? No --quiet. Did a member crash? --failed.",
        SpecNo::Configuration => "the log of another life? --lives. Rings that began again?",
        SpecNo::Turns => "changes that are not told? --transitional. Late? --late-changes.",
        SpecNo::OwnDelivery => "sends recorded when taken? --own-sends. Was more to come?",
        SpecNo::Atomicity => "is each delivery recorded?",
        SpecNo::Causality | SpecNo::Gap => "are changes told late? --late-changes.",
        SpecNo::Safety => "does the layer know safe messages? Was more to come? No --quiet.",
        SpecNo::Installed => "a lost tail, or a log that begins too late? --trim.",
    }
}

/// Returns what to do after a no with these faults.
pub fn what_next(alloc: Global, run: &Run, faults: &[Fault]) -> Result<String, AllocError> {
    let mut text = String::new(alloc);
    let Some(fault) = faults.first() else {
        return Ok(text);
    };
    let mistake = mistake(fault.spec);
    write!(
        text,
        "What next (docs/OWN-LOGS.md has the options of tools/logs join):\n"
    )?;
    write!(text, "  Rule out the recording: {mistake}\n")?;
    let places = fault.places.as_slice();
    if let Some(message) = places.iter().find_map(|place| message_at(run, *place)) {
        write!(
            text,
            "  What became of the message: totem explain --message {message}\n"
        )?;
    }
    if let Some(place) = places.first() {
        let place = place_name(alloc, run.version, *place)?;
        write!(
            text,
            "  The line in its file: tools/logs where MAP {place}. Drawn: totem explain --svg\n"
        )?;
    }
    Ok(text)
}
