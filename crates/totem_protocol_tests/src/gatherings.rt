//! Gatherings by direct calls: Joins are given in words, and what a gathering answers is text.
use crate::values::{Case, part, proc, push, push_procs, set};
use std::alloc::{AllocError, Global};
use totem_member::{Gather, GatherOut, MemberFault};
use totem_packets::{Join, Number, Processes, TooMany};

/// Returns the gathering of process `me` with these processes.
fn gather(alloc: Global, me: u16, base: &Processes) -> Result<Gather, TooMany> {
    Gather::new(alloc, proc(me), base, Number::of(4))
}

/// Returns the Join of a word such as `4:2:1,2:3`: process 2 has heard of ring number 4, knows 1 and
/// 2, and gave up 3.
fn join_of(alloc: Global, word: &str) -> Result<Join, AllocError> {
    let processes = set(alloc, part(word, 2))?;
    Ok(Join {
        sender: proc(part(word, 1).parse::<u16>().unwrap_or(0)),
        seq: Number::of(part(word, 0).parse::<u32>().unwrap_or(0).max(1)),
        processes,
        failed: set(alloc, part(word, 3))?,
    })
}

/// A gathering, and the result of its last step.
#[derive(Drop)]
struct Step {
    gathering: Gather,
    out: GatherOut,
}

fn push_maybe(alloc: Global, text: &mut String, set: &Option<Processes>) -> Result<(), AllocError> {
    match set {
        None => text.push_str(" none"),
        Some(set) => push_procs(alloc, text, set.as_slice()),
    }
}

fn push_gathered(alloc: Global, text: &mut String, gathering: &Gather) -> Result<(), AllocError> {
    push_procs(alloc, text, gathering.gathered().as_slice())
}

fn push_consensus(alloc: Global, text: &mut String, gathering: &Gather) -> Result<(), AllocError> {
    push_maybe(alloc, text, &gathering.consensus())
}

/// Adds the Join of a copy of the gathering: its sender, and the processes it knows.
fn push_join(alloc: Global, text: &mut String, gathering: &Gather) -> Result<(), AllocError> {
    let join = gathering.try_clone(alloc)?.join();
    push(text, format!(in alloc; " {}:", join.sender))?;
    push_procs(alloc, text, join.processes.as_slice())
}

/// Adds what this word asks of a gathering.
fn push_asked(
    alloc: Global,
    text: &mut String,
    gathering: &Gather,
    word: &str,
) -> Result<(), AllocError> {
    match word {
        "me" => push_procs(alloc, text, &[gathering.me()]),
        "seq" => push(text, format!(in alloc; " {}", gathering.seq().get())),
        "known" => push_procs(alloc, text, gathering.processes().as_slice()),
        "failed" => push_procs(alloc, text, gathering.failed().as_slice()),
        "gathered" => push_gathered(alloc, text, gathering),
        "consensus" => push_consensus(alloc, text, gathering),
        "join" => push_join(alloc, text, gathering),
        _ => text.push_str(" no such word"),
    }
}

impl Step {
    fn takes(
        &mut self,
        text: &mut String,
        answer: Result<GatherOut, MemberFault>,
    ) -> Result<(), AllocError> {
        match answer {
            Ok(out) => {
                self.out = out;
                Ok(())
            }
            Err(fault) => text.push_str(fault.name()),
        }
    }

    fn hears(&mut self, alloc: Global, text: &mut String, word: &str) -> Result<(), AllocError> {
        let join = join_of(alloc, word)?;
        let answer = self.gathering.on_join(alloc, &join);
        self.takes(text, answer)
    }

    fn ends(&mut self, alloc: Global, text: &mut String) -> Result<(), AllocError> {
        let answer = self.gathering.on_timeout(alloc);
        self.takes(text, answer)
    }

    /// Adds what this word asks: of the last step whether its Join is to be broadcast again and on which members there is
    /// consensus, and otherwise of the gathering.
    fn asked(&self, alloc: Global, text: &mut String, word: &str) -> Result<(), AllocError> {
        match word {
            "again" => text.push_str(if self.out.again { " yes" } else { " no" }),
            "members" => push_maybe(alloc, text, &self.out.members),
            _ => push_asked(alloc, text, &self.gathering, word),
        }
    }

    fn tells(&self, alloc: Global, text: &mut String, word: &str) -> Result<(), AllocError> {
        text.push_str(word)?;
        self.asked(alloc, text, word)?;
        text.push_str("; ")
    }

    /// Does what one word says: `timeout`, a Join that is taken, or a question.
    fn does(&mut self, alloc: Global, text: &mut String, word: &str) -> Result<(), AllocError> {
        if word == "timeout" {
            return self.ends(alloc, text);
        }
        if word.contains(':') {
            return self.hears(alloc, text, word);
        }
        self.tells(alloc, text, word)
    }

    fn lives(&mut self, alloc: Global, words: &str) -> Result<String, AllocError> {
        let mut text = String::new(alloc);
        for word in words.split_whitespace() {
            self.does(alloc, &mut text, word)?;
        }
        Ok(text)
    }
}

/// Lets process 1 gather with these processes, does what the words say, and returns what they ask.
fn life(alloc: Global, base: &str, words: &str) -> Result<String, AllocError> {
    let base = set(alloc, base)?;
    match gather(alloc, 1, &base) {
        Ok(gathering) => begun(alloc, gathering, words),
        Err(fault) => format!(in alloc; "{fault:?}"),
    }
}

fn begun(alloc: Global, gathering: Gather, words: &str) -> Result<String, AllocError> {
    let out = GatherOut {
        again: false,
        members: None,
    };
    Step { gathering, out }.lives(alloc, words)
}

/// Returns how process `me` gathers with 1 to 32.
fn gathers_with_32(alloc: Global, me: u16) -> Result<String, AllocError> {
    let base = set(alloc, "1-32")?;
    match gather(alloc, me, &base) {
        Ok(gathering) => format!(in alloc; "{} gathers", gathering.me()),
        Err(fault) => fault.to_string(alloc),
    }
}

/// Lets the gathering take the Join of process `me`, which knows only itself.
fn hear_one(alloc: Global, gathering: &mut Gather, me: u16) -> Result<&'static str, TooMany> {
    let join = gather(alloc, me, &Processes::none())?.join();
    Ok(match gathering.on_join(alloc, &join) {
        Ok(_) => "heard",
        Err(fault) => fault.name(),
    })
}

/// Returns what process 32, which gathers with these processes, does with a Join of process `me`.
fn heard_by(alloc: Global, base: &Processes, me: u16) -> Result<&'static str, TooMany> {
    let mut gathering = gather(alloc, 32, base)?;
    hear_one(alloc, &mut gathering, me)
}

/// Returns what process 32, which gathers with 1 to 32, does with a Join of process `me`.
fn heard_by_32(alloc: Global, me: u16) -> Result<String, AllocError> {
    let base = set(alloc, "1-32")?;
    match heard_by(alloc, &base, me) {
        Ok(answer) => String::from_str(alloc, answer),
        Err(fault) => format!(in alloc; "{fault:?}"),
    }
}

/// Returns the Join of each gathering.
fn joins(alloc: Global, all: &[Gather]) -> Result<Vec<Join>, AllocError> {
    let mut joins = Vec::new(alloc);
    for gathering in all {
        joins.push(gathering.join())?;
    }
    Ok(joins)
}

/// Lets the gathering take a Join. Returns whether it has consensus on this set then.
fn agrees_after(alloc: Global, gathering: &mut Gather, join: &Join, all: &Processes) -> bool {
    match gathering.on_join(alloc, join) {
        Ok(out) => out.members.as_ref().is_some_and(|members| members.is(all)),
        Err(_) => false,
    }
}

/// Lets the gathering take the Joins of all others. Returns whether it has consensus on this set in the end.
fn agrees_on(alloc: Global, gathering: &mut Gather, joins: &[Join], all: &Processes) -> bool {
    let mut agrees = false;
    for join in joins {
        if join.sender != gathering.me() {
            agrees = agrees_after(alloc, gathering, join, all);
        }
    }
    agrees
}

/// Lets each gathering take the Joins of all others. Returns how many have consensus on this set in the end.
fn agreed(alloc: Global, gathers: &mut [Gather], all: &Processes) -> Result<u32, AllocError> {
    let joins = joins(alloc, gathers)?;
    let mut count = 0u32;
    for gathering in gathers {
        if agrees_on(alloc, gathering, &joins, all) {
            count = count.saturating_add(1);
        }
    }
    Ok(count)
}

/// Returns how many have consensus on this set after three rounds of Joins.
fn agreed_at_last(
    alloc: Global,
    gathers: &mut [Gather],
    all: &Processes,
) -> Result<String, AllocError> {
    agreed(alloc, gathers, all)?;
    agreed(alloc, gathers, all)?;
    format!(in alloc; "{} agree", agreed(alloc, gathers, all)?)
}

/// Returns a gathering of each process alone.
fn alone(alloc: Global, all: &Processes) -> Result<Vec<Gather>, AllocError> {
    let mut gathers = Vec::new(alloc);
    for me in all.as_slice() {
        if let Ok(gathering) = Gather::new(alloc, *me, &Processes::none(), Number::of(4)) {
            gathers.push(gathering)?;
        }
    }
    Ok(gathers)
}

/// Returns how many of these processes, which begin alone, have consensus on all of them in the end.
fn agree_at_last(alloc: Global, all: &Processes) -> Result<String, AllocError> {
    let mut gathers = alone(alloc, all)?;
    agreed_at_last(alloc, &mut gathers, all)
}

/// Returns what the words ask. The first word says what is done: a process gathers with 1 to 32, process 32 gets another's Join,
/// some processes agree on one set, or 1 gathers with the processes that the word lists and does what the other words say.
pub(crate) fn told(alloc: Global, words: &str) -> Result<String, AllocError> {
    let (first, rest) = words.split_once(' ').unwrap_or((words, ""));
    let number = rest.parse::<u16>().unwrap_or(0);
    match first {
        "gathers" => gathers_with_32(alloc, number),
        "heard" => heard_by_32(alloc, number),
        "agree" => {
            let all = set(alloc, rest)?;
            agree_at_last(alloc, &all)
        }
        base => life(alloc, base, rest),
    }
}

pub(crate) const GATHERINGS: [Case; 10] = [
    // a gathering begins with the process itself
    (
        "2 me seq known failed gathered consensus join",
        "me 1; seq 4; known 1 2; failed; gathered 1 2; consensus none; join 1: 1 2; ",
    ),
    // two agree
    ("2 4:2:1,2: again members", "again no; members 1 2; "),
    // new processes are broadcast again
    (
        "2 8:3:3,4:4 again members known failed seq",
        "again yes; members none; known 1 2 3 4; failed 4; seq 8; ",
    ),
    // a silent member is given up
    (
        "2,3 4:2:1-3: members timeout again failed members 4:2:1-3:3 members",
        "members none; again yes; failed 3; members none; members 1 2; ",
    ),
    // a process that gives me up has failed
    (
        "2 4:2:1,2,7:1 again known failed members 4:2:1,2:",
        "again yes; known 1 2; failed 2; members 1; Stranger",
    ),
    ("gathers 33", "there are more than 32 processes"),
    ("heard 33", "Stranger"),
    ("agree 1-2", "2 agree"),
    ("agree 1-3", "3 agree"),
    ("agree 1-32", "32 agree"),
];
