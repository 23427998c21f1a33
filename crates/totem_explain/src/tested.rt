//! The counts of a run as text: in words, and as lines for programs (docs/SPECIFICATIONS.md, "Counts").
use crate::counts::Counts;
use crate::pass::Pass;
use std::alloc::{AllocError, Global};
use totem_evs::SpecNo;

/// The names of the counts for programs and their labels for people, in the order of `values`. The name of a count about a premise or an
/// excuse begins with the specification.
const NAMES: [(&str, &str); 33] = [
    ("regular", "regular configurations"),
    ("shared", "shared"),
    ("partition", "partitions"),
    ("merge", "merges"),
    ("returned", "returned processes"),
    ("transitional", "transitional deliveries"),
    ("safe-sent", "safe messages sent"),
    ("safe", "delivered"),
    ("1.1", "deliveries of what another process sent"),
    ("1.3", "deliveries"),
    ("1.4", "sends and deliveries"),
    ("2.1", "quiet logs"),
    ("2.1-may-come", "members that may still come"),
    ("2.2", "entries that are no changes"),
    ("2.3", "configurations that two logs or more change to"),
    ("2.4", "neighbouring changes"),
    ("3", "sends that their sender delivers"),
    ("3-failed", "excused as failed"),
    ("3-open", "excused as open"),
    ("4", "messages in which groups had to agree"),
    ("4-pairs", "groups of two"),
    ("4-larger", "larger groups"),
    ("5", "deliveries that had to keep an order of causes"),
    ("5-sends", "sends after another message"),
    ("6.1", "messages that two processes or more deliver"),
    ("6.3", "deliveries past a message that somebody lacks"),
    ("6.3-no-member", "by a process that lacks one"),
    ("7.1", "members that had to deliver a safe message"),
    ("7.1-failed", "excused as failed"),
    ("7.1-open", "excused as open"),
    (
        "7.2",
        "deliveries of safe messages in regular configurations",
    ),
    ("complete", "complete quiet logs"),
    ("missing", "deliveries missing in others"),
];

fn values(counts: &Counts) -> [u32; 33] {
    [
        counts.regular,
        counts.shared,
        counts.partitions,
        counts.merges,
        counts.returned,
        counts.size.transitional_deliveries,
        counts.size.safe_sends,
        counts.safe_delivered,
        counts.received,
        counts.size.deliveries,
        counts.size.traffic(),
        counts.quiet,
        counts.awaited,
        counts.size.unchanging(),
        counts.twins,
        counts.moves,
        counts.own,
        counts.own_failed,
        counts.own_open,
        counts.agreed,
        counts.pairs,
        counts.larger,
        counts.effects,
        counts.effects_sent,
        counts.common,
        counts.past,
        counts.past_no_member,
        counts.obliged,
        counts.obliged_failed,
        counts.obliged_open,
        counts.installed,
        counts.complete,
        counts.missing,
    ]
}

/// The specifications, and why the premise of each was never met.
const UNTESTED: [(SpecNo, &str); 14] = [
    (SpecNo::Cycle, "no process delivers what another sent"),
    (SpecNo::Unsent, "nothing is delivered"),
    (SpecNo::Twice, "nothing is sent or delivered"),
    (SpecNo::End, "no log is quiet"),
    (SpecNo::Misplaced, "all entries are changes"),
    (
        SpecNo::Configuration,
        "no two logs change to one configuration",
    ),
    (SpecNo::Turns, "no log has two changes"),
    (SpecNo::OwnDelivery, "no process delivers what it sent"),
    (
        SpecNo::Atomicity,
        "no processes that went on together had delivered a message before",
    ),
    (SpecNo::Causality, "no message with a cause is delivered"),
    (SpecNo::Order, "no two processes deliver one message"),
    (
        SpecNo::Gap,
        "no delivery is past a message that somebody lacks",
    ),
    (
        SpecNo::Safety,
        "no other member had to deliver a safe message",
    ),
    (
        SpecNo::Installed,
        "no safe message is delivered in a regular configuration",
    ),
];

/// A count, with its name and its label.
#[derive(Clone, Copy)]
struct Count {
    /// The specification whose premise or excuse it counts, with why that premise was never met; `None` if it says what the run is like,
    /// or what quiet logs lack.
    about: Option<(SpecNo, &'static str)>,
    name: &'static str,
    label: &'static str,
    value: u32,
}

/// Returns the counts that an audit checked which stopped at a fault of `stopped`, if at any.
fn checked(
    alloc: Global,
    counts: &Counts,
    stopped: Option<SpecNo>,
) -> Result<Vec<Count>, AllocError> {
    let mut list = Vec::new(alloc);
    for ((name, label), value) in NAMES.iter().zip(values(counts).iter()) {
        let about = UNTESTED
            .iter()
            .find(|(spec, _)| name.starts_with(spec.as_str()));
        let about = about.copied();
        let pass = match about {
            Some((spec, _)) => Pass::of(spec),
            None if *name == "complete" || *name == "missing" => Pass::D,
            None => Pass::A,
        };
        if stopped.is_some_and(|fault| pass > Pass::of(fault)) {
            continue;
        }
        list.push(Count {
            about,
            name: *name,
            label: *label,
            value: *value,
        })?;
    }
    Ok(list)
}

/// The specifications that were never tested.
#[derive(Drop)]
struct Untested {
    text: String,
    /// Specifications that have the same reason, which are not in the text yet.
    specs: String,
    why: &'static str,
}

impl Untested {
    fn add(&mut self, spec: SpecNo, why: &'static str) -> Result<(), AllocError> {
        if self.why == why {
            return write!(self.specs, ", {spec}");
        }
        self.end()?;
        self.why = why;
        write!(self.specs, "{spec}")
    }

    /// Puts the specifications that are not in the text yet into it.
    fn end(&mut self) -> Result<(), AllocError> {
        if self.specs.is_empty() {
            return Ok(());
        }
        if !self.text.is_empty() {
            self.text.push_str("; ")?;
        }
        self.text.push_str(self.specs.as_str())?;
        self.text.push_str(": ")?;
        self.text.push_str(self.why)?;
        self.specs.clear();
        Ok(())
    }
}

/// The counts in words: a line for all that are about one specification.
#[derive(Drop)]
struct Told {
    text: String,
    line: String,
    about: Option<(SpecNo, &'static str)>,
    /// Whether the line has a count above 0.
    is_any: bool,
    untested: Untested,
}

impl Told {
    fn none(alloc: Global) -> Told {
        Told {
            text: String::new(alloc),
            line: String::new(alloc),
            about: None,
            is_any: false,
            untested: Untested {
                text: String::new(alloc),
                specs: String::new(alloc),
                why: "",
            },
        }
    }

    fn add(&mut self, one: &Count, is_any_safe: bool) -> Result<(), AllocError> {
        if self.line.is_empty() || self.about != one.about {
            self.end_line()?;
            self.begin_line(one, is_any_safe)?;
        } else {
            self.line.push_str(", ")?;
        }
        let label = one.label;
        let value = one.value;
        self.is_any |= value > 0;
        write!(self.line, "{label} {value}")
    }

    fn begin_line(&mut self, one: &Count, is_any_safe: bool) -> Result<(), AllocError> {
        self.about = one.about;
        let Some((spec, why)) = one.about else {
            return self.line.push_str("  ");
        };
        if one.value == 0 {
            let is_about_safe = matches!(spec, SpecNo::Safety | SpecNo::Installed);
            let why = if is_about_safe && !is_any_safe {
                "no message is safe"
            } else {
                why
            };
            self.untested.add(spec, why)?;
        }
        write!(self.line, "  {spec}: ")
    }

    /// Puts the line into the text, unless all its counts are 0.
    fn end_line(&mut self) -> Result<(), AllocError> {
        if self.is_any {
            self.text.push_str(self.line.as_str())?;
            self.text.push_str("\n")?;
        }
        self.line.clear();
        self.is_any = false;
        Ok(())
    }

    fn end(&mut self) -> Result<(), AllocError> {
        self.end_line()?;
        self.untested.end()?;
        if !self.untested.text.is_empty() {
            self.text.push_str("  Not tested: ")?;
            self.text.push_str(self.untested.text.as_str())?;
            self.text.push_str(".\n")?;
        }
        Ok(())
    }
}

impl Counts {
    /// Returns the counts in words, and which specifications were never tested. Leaves out the specifications that an audit did not check
    /// because it stopped at a fault of `stopped`.
    pub fn told(&self, alloc: Global, stopped: Option<SpecNo>) -> Result<String, AllocError> {
        let mut told = Told::none(alloc);
        told.text.push_str("What the run put to the test:\n")?;
        for one in &checked(alloc, self, stopped)? {
            told.add(one, self.size.safe_sends > 0)?;
        }
        told.end()?;
        Ok(told.text)
    }

    /// Returns a line for each count, as in `count 6.1 12`. Leaves out the same specifications.
    pub fn lines(&self, alloc: Global, stopped: Option<SpecNo>) -> Result<String, AllocError> {
        let mut text = String::new(alloc);
        for one in &checked(alloc, self, stopped)? {
            let name = one.name;
            let value = one.value;
            write!(text, "count {name} {value}\n")?;
        }
        Ok(text)
    }

    /// Returns the count with a name, or 0 if no count has it.
    pub fn value_of(&self, name: &str) -> u32 {
        let values = values(self);
        let mut all = NAMES.iter().zip(values.iter());
        all.find(|((known, _), _)| *known == name)
            .map_or(0, |(_, value)| *value)
    }
}
