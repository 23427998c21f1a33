//! The arguments of a command line.
use crate::check_stream::Checker;
use crate::explain_stream::Explanation;
use crate::message_name::message_named;
use crate::rendering::Rendering;
use crate::report::Form;
use crate::run_words::{RunWords, run_command, run_words};
use clap::builder::ValueParser;
use clap::{Arg, ArgAction, ArgMatches, Command, Error};
use std::alloc::{AllocError, Global};
use totem_explain::{REQUIRABLE, Required};
use totem_names::MsgId;

/// What the arguments ask of the run on standard input.
#[derive(Clone, Copy)]
pub enum Asked {
    /// Its audit, by 1 to 64 workers, with a report in this form.
    Audit {
        workers: u32,
        form: Form,
    },
    /// What became of a message, in lines of 40 to 400 columns. `None`: what the arguments have is no name of a message.
    Message {
        message: Option<MsgId>,
        columns: usize,
    },
    /// The same audit with an explanation in place of the report.
    Explain {
        workers: u32,
        explanation: Explanation,
        required: Required,
    },
    /// The check of the run and the certificate after it, by one of the checkers.
    Check {
        checker: Checker,
    },
}

/// What the arguments of a command line ask for.
#[derive(Clone, Copy)]
pub enum Words {
    /// A verdict on the run on standard input.
    Verdict(Asked),
    /// The run that the script on standard input makes, or an explanation of the line at which it is refused.
    ExplainScript,
    /// The run that the script on standard input makes.
    Sim,
    /// The run that nodes in threads record.
    Run(RunWords),
    /// The same, without progress.
    RunQuietly(RunWords),
}

const ENDINGS: &str = "\
Exit status:
  0   audit, check, explain: the verdict is yes. sim, explain --script, run: the run was written. run --weave: an order was found
  1   audit, check, explain: the verdict is no. run --weave: there is no order
  2   the run, script or certificate was refused. `totem run` also ends with 2 if a node's log, or the record of its inputs and answers, is full; use fewer ticks
  3   out of memory. `totem run` also ends with 3 if a thread could not be started
  4   standard input could not be read, or standard output could not be written
  5   explain --require: the verdict is yes, but a required count is 0
  6   explain --message: no log of the run names the message. explain --svg --fault: the report has no such fault
  64  usage error";

const AUDIT_EXAMPLE: &str = "\
A log ends with the line `failed` if its last entry is a failure. Other logs end with `open` or, in version 3 of the run text, with
`quiet` if nothing more was to come. docs/OWN-LOGS.md and docs/SPECIFICATIONS.md describe the text. If the run is refused,
`totem explain < RUN` shows the place, and what is expected there.
Example: totem audit < examples/first-yes.run";

const EXPLAIN_EXAMPLE: &str = "Example: totem explain < examples/first-no.run";

const SIM_EXAMPLE: &str = "Example: totem sim < examples/partition-that-heals.script | totem audit";

const CHECK_EXAMPLE: &str = "\
The certificate is the part of `totem audit`'s report from the line that begins with `totem-cert` to the line `end`.
Example: totem check < examples/first-yes.checked";

fn workers_option<'a>(alloc: Global) -> Arg<'a> {
    Arg::new(alloc, "workers")
        .long("workers")
        .value_name("W")
        .value_parser(ValueParser::Unsigned(1, 64))
        .default_value("1")
        .help(
            "Number of threads, from 1 to 64, that search for faults. The output is the same for any number",
        )
}

fn audit_command<'a>(alloc: Global) -> Result<Command<'a>, AllocError> {
    Command::new(alloc, "audit")
        .override_usage("totem audit [OPTIONS] < RUN")
        .about("Judges the run on standard input, and writes a report")
        .after_help(AUDIT_EXAMPLE)
        .arg(workers_option(alloc))?
        .arg(brief_option(alloc))
}

fn brief_option<'a>(alloc: Global) -> Arg<'a> {
    Arg::new(alloc, "brief")
        .long("brief")
        .action(ArgAction::SetTrue)
        .help(
            "Leave out the certificate of a yes. The report is short enough for a pipe that reads only its beginning, as to `head` or `grep -q`",
        )
}

fn message_option<'a>(alloc: Global) -> Arg<'a> {
    Arg::new(alloc, "message")
        .long("message")
        .value_name("M")
        .help(
            "Instead of the verdict, write what became of a message, as in `--message 317.1#52`: who sent it, who delivered it where, and where those were who did not. The status is 6 if no log names it",
        )
}

fn views_option<'a>(alloc: Global) -> Arg<'a> {
    Arg::new(alloc, "views")
        .long("views")
        .action(ArgAction::SetTrue)
        .help(
            "Instead of the explanation, write the membership of the whole run: configuration by configuration, who came from where, who never came, how much was sent and delivered there, and whose log ends there",
        )
}

fn svg_option<'a>(alloc: Global) -> Arg<'a> {
    Arg::new(alloc, "svg")
        .long("svg")
        .action(ArgAction::SetTrue)
        .help(
            "Draw the run as an SVG picture; of a long run, draw only the part around the first fault or, for a yes, the ends of the logs. With --views draw the membership",
        )
}

fn fault_option<'a>(alloc: Global) -> Arg<'a> {
    Arg::new(alloc, "fault")
        .long("fault")
        .value_name("F")
        .value_parser(ValueParser::Unsigned(1, 4_294_967_295))
        .help(
            "With --svg: draw this fault of the report, counted from 1, and not the first one. The status is 6 if the report has no such fault",
        )
}

fn counts_option<'a>(alloc: Global) -> Arg<'a> {
    Arg::new(alloc, "counts")
        .long("counts")
        .action(ArgAction::SetTrue)
        .help(
            "Instead of the explanation, write what the run put to the test, in lines for programs. docs/SPECIFICATIONS.md, Counts, describes them",
        )
}

fn apart_option<'a>(alloc: Global) -> Arg<'a> {
    Arg::new(alloc, "apart")
        .long("apart")
        .action(ArgAction::SetTrue)
        .help(
            "Instead of the explanation, write where the group parted, and which messages one side delivered and another lacks, in lines for programs. docs/SPECIFICATIONS.md, Apart, describes them",
        )
}

fn require_option<'a>(alloc: Global) -> Arg<'a> {
    Arg::new(alloc, "require")
        .long("require")
        .value_name("COUNTS")
        .value_delimiter(',')
        .value_parser(ValueParser::Names(&REQUIRABLE))
        .help(
            "End a yes with status 5 and a line on standard error if one of these counts is 0, as in `--require safe,transitional,7.1`; `complete` has to be that of all quiet logs. docs/SPECIFICATIONS.md, Counts, describes them",
        )
}

fn columns_option<'a>(alloc: Global) -> Arg<'a> {
    Arg::new(alloc, "columns")
        .long("columns")
        .value_name("N")
        .value_parser(ValueParser::Unsigned(40, 400))
        .default_value("79")
        .help(
            "Length of the lines of the explanation, from 40 to 400. Only longer words and the lines of the faults are longer",
        )
}

fn script_option<'a>(alloc: Global) -> Arg<'a> {
    Arg::new(alloc, "script")
        .long("script")
        .action(ArgAction::SetTrue)
        .help(
            "Do what sim does: read a script, and write the run that it makes. If the script is refused, show the line",
        )
}

fn explain_command<'a>(alloc: Global) -> Result<Command<'a>, AllocError> {
    Command::new(alloc, "explain")
        .override_usage("totem explain [OPTIONS] < RUN")
        .about(
            "Judges the run on standard input, and explains in words what is broken, and what the run put to the test; if its text is refused, shows where",
        )
        .after_help(EXPLAIN_EXAMPLE)
        .arg(workers_option(alloc))?
        .arg(svg_option(alloc))?
        .arg(columns_option(alloc))?
        .arg(counts_option(alloc).conflicts_with("svg")?)?
        .arg(require_option(alloc).conflicts_with("svg")?)?
        .arg(
            script_option(alloc)
                .conflicts_with("svg")?
                .conflicts_with("counts")?
                .conflicts_with("require")?,
        )?
        .arg(
            fault_option(alloc)
                .requires_arg("svg")?
                .conflicts_with("counts")?
                .conflicts_with("views")?
                .conflicts_with("script")?,
        )?
        .arg(
            views_option(alloc)
                .conflicts_with("counts")?
                .conflicts_with("require")?
                .conflicts_with("script")?,
        )?
        .arg(
            apart_option(alloc)
                .conflicts_with("svg")?
                .conflicts_with("counts")?
                .conflicts_with("require")?
                .conflicts_with("fault")?
                .conflicts_with("views")?
                .conflicts_with("script")?,
        )?
        .arg(
            message_option(alloc)
                .conflicts_with("apart")?
                .conflicts_with("views")?
                .conflicts_with("fault")?
                .conflicts_with("svg")?
                .conflicts_with("counts")?
                .conflicts_with("require")?
                .conflicts_with("script")?,
        )
}

/// Returns the length of lines that the arguments of `explain` ask for.
fn columns_of(matches: &ArgMatches<'_>) -> usize {
    matches.get_one::<u32>("columns").unwrap_or(79) as usize
}

/// Returns what the arguments of `explain` ask for.
fn explain_words(alloc: Global, matches: &ArgMatches<'_>) -> Result<Words, AllocError> {
    if matches.get_flag("script") {
        return Ok(Words::ExplainScript);
    }
    let asked = match matches.get_str("message") {
        Some(name) => Asked::Message {
            message: message_named(alloc, name)?,
            columns: columns_of(matches),
        },
        None => Asked::Explain {
            workers: workers_of(matches),
            explanation: explanation_of(matches),
            required: Required::of(matches.get_strs("require").unwrap_or(&[])),
        },
    };
    Ok(Words::Verdict(asked))
}

/// Returns which explanation of the run the arguments of `explain` ask for.
fn explanation_of(matches: &ArgMatches<'_>) -> Explanation {
    let of_views = matches.get_flag("views");
    if matches.get_flag("svg") && of_views {
        Explanation::Rendered(Rendering::DrawnViews)
    } else if matches.get_flag("svg") {
        Explanation::Rendered(Rendering::Picture(matches.get_one::<u32>("fault")))
    } else if matches.get_flag("counts") {
        Explanation::Rendered(Rendering::Counts)
    } else if matches.get_flag("apart") {
        Explanation::Rendered(Rendering::Apart)
    } else if of_views {
        Explanation::Rendered(Rendering::Views(columns_of(matches)))
    } else {
        Explanation::Words(columns_of(matches))
    }
}

/// Returns what the arguments of `audit` ask for.
fn audit_words(matches: &ArgMatches<'_>) -> Asked {
    let form = if matches.get_flag("brief") {
        Form::Brief
    } else {
        Form::Whole
    };
    Asked::Audit {
        workers: workers_of(matches),
        form,
    }
}

/// Returns the number of workers that the arguments of a verdict ask for.
fn workers_of(matches: &ArgMatches<'_>) -> u32 {
    matches.get_one::<u32>("workers").unwrap_or(1)
}

fn plain_option<'a>(alloc: Global) -> Arg<'a> {
    Arg::new(alloc, "plain")
        .long("plain")
        .action(ArgAction::SetTrue)
        .help(
            "Check a small run by a second program, which tests each specification as it is defined and is short enough to be read. The answer is the same",
        )
}

fn check_command<'a>(alloc: Global) -> Result<Command<'a>, AllocError> {
    Command::new(alloc, "check")
        .override_usage("totem check [OPTIONS] < RUN_AND_CERTIFICATE")
        .about(
            "Reads a run and then its certificate from standard input, and judges the run. Refuses a certificate that does not fit it",
        )
        .after_help(CHECK_EXAMPLE)
        .arg(plain_option(alloc))
}

/// Returns what the arguments of `check` ask for.
fn check_words(matches: &ArgMatches<'_>) -> Words {
    let checker = if matches.get_flag("plain") {
        Checker::Plain
    } else {
        Checker::Walk
    };
    Words::Verdict(Asked::Check { checker })
}

fn sim_command<'a>(alloc: Global) -> Command<'a> {
    Command::new(alloc, "sim")
        .override_usage("totem sim < SCRIPT")
        .about("Follows the script on standard input, and writes the run that its nodes record")
        .after_help(SIM_EXAMPLE)
}

fn command<'a>(alloc: Global) -> Result<Command<'a>, AllocError> {
    Command::new(alloc, "totem")
        .version("0.2.0")
        .about("Audits the logs of a process group: its messages and its changes of membership")
        .after_help(ENDINGS)
        .subcommand_required(true)
        .subcommand(audit_command(alloc)?)?
        .subcommand(explain_command(alloc)?)?
        .subcommand(check_command(alloc)?)?
        .subcommand(sim_command(alloc))?
        .subcommand(run_command(alloc)?)
}

/// Parses the arguments, of which the first is the program's name. An error has the text to print.
pub fn read_words(alloc: Global, words: &[String]) -> Result<Words, Error> {
    let matches = command(alloc)?.try_get_matches_from(words)?;
    Ok(match matches.subcommand() {
        Some(("check", check)) => check_words(check),
        Some(("sim", _)) => Words::Sim,
        Some(("run", run)) if run.get_flag("quiet") => Words::RunQuietly(run_words(run)),
        Some(("run", run)) => Words::Run(run_words(run)),
        Some(("explain", explain)) => explain_words(alloc, explain)?,
        Some((_, audit)) => Words::Verdict(audit_words(audit)),
        None => Words::Verdict(Asked::Audit {
            workers: 1,
            form: Form::Whole,
        }),
    })
}
