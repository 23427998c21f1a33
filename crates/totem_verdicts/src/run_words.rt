//! The arguments of `run`.
use clap::builder::ValueParser;
use clap::{Arg, ArgAction, ArgMatches, Command};
use std::alloc::{AllocError, Global};

/// The arguments of a run in threads: its numbers (docs/PROTOCOL.md, "A run in threads"), and whether its ring is woven.
#[derive(Clone, Copy)]
pub struct RunWords {
    pub nodes: u16,
    pub ticks: u32,
    pub seed: u64,
    pub lose: u8,
    pub repeat: u8,
    pub hold: u8,
    pub weave: bool,
}

/// An option of the command line that takes a number in a range.
struct NumberOption {
    name: &'static str,
    letter: &'static str,
    least: u64,
    most: u64,
    default: &'static str,
    help: &'static str,
}

const OPTIONS: [NumberOption; 6] = [
    NumberOption {
        name: "nodes",
        letter: "N",
        least: 1,
        most: 32,
        default: "3",
        help: "Number of nodes, from 1 to 32",
    },
    NumberOption {
        name: "ticks",
        letter: "T",
        least: 1,
        most: 1_000_000,
        default: "4000",
        help: "Length of the run in ticks, from 1 to 1000000. A tick is about one hop of the token.",
    },
    NumberOption {
        name: "seed",
        letter: "S",
        least: 0,
        most: u64::MAX,
        default: "1",
        help: "Seed for packet loss, duplication and reordering. The same numbers give the same run",
    },
    NumberOption {
        name: "lose",
        letter: "L",
        least: 0,
        most: 100,
        default: "0",
        help: "Percentage of packets dropped. Once a ring breaks, the nodes may need long to form another, or never do (docs/PROTOCOL.md, A run in threads): the last line on standard error says how many rings were formed and how many messages all nodes delivered",
    },
    NumberOption {
        name: "repeat",
        letter: "R",
        least: 0,
        most: 100,
        default: "0",
        help: "Percentage of packets duplicated; this and the percentage of packets dropped may add up to at most 100",
    },
    NumberOption {
        name: "hold",
        letter: "H",
        least: 0,
        most: 255,
        default: "0",
        help: "How many later packets may overtake one, from 0 to 255. With 2 or more the token is so late that the nodes mostly form new rings and deliver little",
    },
];

impl NumberOption {
    fn arg<'a>(&self, alloc: Global) -> Arg<'a> {
        Arg::new(alloc, self.name)
            .long(self.name)
            .value_name(self.letter)
            .value_parser(ValueParser::Unsigned(self.least, self.most))
            .default_value(self.default)
            .help(self.help)
    }
}

fn weave_option<'a>(alloc: Global) -> Arg<'a> {
    Arg::new(alloc, "weave")
        .long("weave")
        .action(ArgAction::SetTrue)
        .help(
            "Instead of the run, write whether all steps of the nodes on their first ring fit into one order such that each packet is sent before it is received. docs/PROTOCOL.md, The woven ring, describes what is written",
        )
}

fn quiet_option<'a>(alloc: Global) -> Arg<'a> {
    Arg::new(alloc, "quiet")
        .long("quiet")
        .action(ArgAction::SetTrue)
        .help("Hide progress, and the line that says what came of the run")
}

/// Returns the command that runs nodes in threads.
pub fn run_command<'a>(alloc: Global) -> Result<Command<'a>, AllocError> {
    let mut command = Command::new(alloc, "run")
        .about("Runs nodes in threads, and writes the run that they record")
        .after_help("Example: totem run --lose 1 --repeat 5 --hold 1 | totem audit");
    for option in &OPTIONS {
        command = command.arg(option.arg(alloc))?;
    }
    command.arg(weave_option(alloc))?.arg(quiet_option(alloc))
}

/// Returns what the arguments of `run` ask for.
pub fn run_words(matches: &ArgMatches<'_>) -> RunWords {
    RunWords {
        nodes: matches.get_one::<u16>("nodes").unwrap_or(3),
        ticks: matches.get_one::<u32>("ticks").unwrap_or(4000),
        seed: matches.get_one::<u64>("seed").unwrap_or(1),
        lose: matches.get_one::<u8>("lose").unwrap_or(0),
        repeat: matches.get_one::<u8>("repeat").unwrap_or(0),
        hold: matches.get_one::<u8>("hold").unwrap_or(0),
        weave: matches.get_flag("weave"),
    }
}
