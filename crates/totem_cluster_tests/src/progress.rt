//! The progress reports of a run in threads.
use crate::texts::words;
use std::alloc::Global;
use std::sync::Wait;
use std::test::Fail;
use std::thread::Threads;
use totem_cluster::{Logged, Progress, Tally, Traffic, program_with_progress};
use totem_names::{Buffered, ToWrite};

/// Counts the reports, and keeps the last one.
#[derive(Clone, Copy)]
struct Told {
    calls: u32,
    ends: u32,
    passed: u32,
    ticks: u32,
    deliveries: u64,
    configurations: u64,
    traffic: Option<Traffic>,
    made: Option<Tally>,
}

impl Progress for Told {
    fn ticked(&mut self, passed: u32, ticks: u32, logged: Logged) {
        self.calls = self.calls.saturating_add(1);
        self.passed = passed;
        self.ticks = ticks;
        self.deliveries = logged.deliveries;
        self.configurations = logged.configurations;
    }

    fn carried(&mut self, traffic: Traffic) {
        self.traffic = Some(traffic);
    }

    fn ended(&mut self, made: Option<Tally>) {
        self.ends = self.ends.saturating_add(1);
        self.made = made;
    }
}

/// Returns what a run reported, and its text.
fn run_told<T: Threads + Wait + Sync>(
    rt: &T,
    alloc: Global,
    text: &str,
) -> Result<(Told, String), Fail> {
    let words = words(alloc, text)?;
    let mut input = Buffered::new(alloc, b"".as_slice())?;
    let mut output = ToWrite::new(Vec::new(alloc));
    let mut errors = ToWrite::new(Vec::new(alloc));
    let mut told = Told {
        calls: 0,
        ends: 0,
        passed: 0,
        ticks: 0,
        deliveries: 0,
        configurations: 0,
        traffic: None,
        made: None,
    };
    program_with_progress(
        rt,
        alloc,
        words.as_slice(),
        &mut input,
        &mut output,
        &mut errors,
        &mut told,
    );
    Ok((told, String::from_utf8(output.into_inner())?))
}

/// A run reports at each tick the messages and configurations that were logged.
#[test]
fn each_tick_tells_what_was_logged(rt: HostRuntime) -> Result<(), Fail> {
    let (told, text) = run_told(&rt, rt.alloc(), "run --nodes 2 --ticks 800")?;
    let lines = text.lines().filter(|line| line.starts_with("dlv ")).count();
    assert_eq!(rt;
        (told.calls, told.passed, told.ticks, told.ends),
        (800, 800, 800, 1)
    );
    assert!(rt; told.deliveries > 0 && told.deliveries <= lines as u64);
    assert_eq!(rt; told.configurations, 0);
    Ok(())
}

/// A run reports in the end what came of it, and what the network did with packets.
#[test]
fn the_end_tells_what_came_of_the_run(rt: HostRuntime) -> Result<(), Fail> {
    let (told, text) = run_told(&rt, rt.alloc(), "run --nodes 2 --ticks 800")?;
    let sent = text
        .lines()
        .filter(|line| line.starts_with("send "))
        .count() as u64;
    let made = told.made.ok_or("nothing was counted")?;
    assert_eq!(rt; (made.sent, made.rings), (sent, 0));
    assert!(rt; made.delivered_by_all > 0 && made.delivered_by_all <= sent);
    let traffic = told.traffic.ok_or("no traffic was reported")?;
    assert_eq!(rt; (traffic.lost, traffic.repeated), (0, 0));
    assert_eq!(rt; (traffic.held, traffic.waiting), (0, 0));
    assert!(rt; traffic.forwarded > sent && traffic.late <= 2);
    assert!(rt; traffic.delivered_in.is_some_and(|tick| tick > 700));
    Ok(())
}

/// With `--quiet` a run reports no progress.
#[test]
fn a_quiet_run_tells_nothing(rt: HostRuntime) -> Result<(), Fail> {
    let (told, text) = run_told(&rt, rt.alloc(), "run --nodes 2 --ticks 80 --quiet")?;
    assert_eq!(rt; (told.calls, told.ends), (0, 0));
    assert!(rt; told.traffic.is_none() && told.made.is_none());
    assert!(rt; text.starts_with("totem-run 1\n"));
    Ok(())
}
