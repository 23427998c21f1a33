//! The tables of questions and steps, each with its expected answer or result, and the test that checks all of them.
use crate::commits::COMMITS;
use crate::exchanges::EXCHANGES;
use crate::gatherings::GATHERINGS;
use crate::lives::LIVES;
use crate::names::NAMES;
use crate::recoveries::RECOVERIES;
use crate::rings::RINGS;
use crate::streams::STREAMS;
use crate::values::Case;
use crate::{commits, exchanges, gatherings, lives, names, recoveries, rings, streams};
use std::alloc::Global;
use std::test::Fail;

/// Returns the answer or the results for these words on this topic.
fn told(alloc: Global, topic: &str, words: &str) -> Result<String, Fail> {
    match topic {
        "names" => Ok(names::answer(alloc, words)?),
        "lives" => Ok(lives::answer(alloc, words)?),
        "streams" => Ok(streams::told(alloc, words)?),
        "rings" => Ok(rings::told(alloc, words)?),
        "gatherings" => Ok(gatherings::told(alloc, words)?),
        "commits" => Ok(commits::told(alloc, words)?),
        "recoveries" => recoveries::told(alloc, words),
        _ => exchanges::told(alloc, words),
    }
}

const TABLES: [(&str, &[Case]); 8] = [
    ("names", &NAMES),
    ("lives", &LIVES),
    ("streams", &STREAMS),
    ("rings", &RINGS),
    ("gatherings", &GATHERINGS),
    ("commits", &COMMITS),
    ("recoveries", &RECOVERIES),
    ("exchanges", &EXCHANGES),
];

/// Each row of each table has its expected answer or result.
#[test]
fn rows_have_their_answers(rt: HostRuntime) -> Result<(), Fail> {
    for (topic, cases) in &TABLES {
        for (words, wanted) in *cases {
            let told = told(rt.alloc(), topic, words)?;
            assert_eq!(rt; told.as_str(), *wanted, "{topic}: {words}");
        }
    }
    Ok(())
}
