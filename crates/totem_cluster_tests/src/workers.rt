//! Workers that share the jobs of an audit.
use crate::texts::lines;
use std::alloc::Global;
use std::process::Abort;
use std::sync::{Mutex, Wait};
use std::test::Fail;
use std::thread;
use std::thread::Threads;
use std::time::{Clock, Duration};
use totem_audit::{Gate, Verdict, Workers, audit_with};
use totem_evs::{Run, read_run};
use totem_names::FromRead;

/// The number of times that a gate checks, one millisecond apart, before it gives up.
const LOOKS: u32 = 10_000;

/// Two processes that are each alone on a ring: two configurations, and so two jobs.
const TWO_JOBS: &str = "totem-run 1;log 1;conf r4.1 1;open;log 2;conf r4.2 2;open;end;";

/// Four processes that are each alone on a ring: four jobs.
const FOUR_JOBS: &str = "totem-run 1;log 1;conf r4.1 1;open;log 2;conf r4.2 2;open;\
    log 3;conf r4.3 3;open;log 4;conf r4.4 4;open;end;";

/// Five processes that are each alone on a ring: five jobs.
const FIVE_JOBS: &str = "totem-run 1;log 1;conf r4.1 1;open;log 2;conf r4.2 2;open;\
    log 3;conf r4.3 3;open;log 4;conf r4.4 4;open;log 5;conf r4.5 5;open;end;";

/// Counts how often a gate is called before and after each of five jobs; other jobs count for 0.
#[derive(Drop)]
struct CountsJobs<'g, R> {
    rt: &'g R,
    begun: Mutex<[u32; 6]>,
    ended: Mutex<[u32; 6]>,
}

fn count_job<R: Wait>(rt: &R, counts: &Mutex<[u32; 6]>, job: u32) {
    let mut counts = counts.lock(rt);
    let place = if job <= 5 { job as usize } else { 0 };
    counts[place] = counts[place].saturating_add(1);
}

impl<R: Wait + Sync> Gate for CountsJobs<'_, R> {
    fn before(&self, job: u32) {
        count_job(self.rt, &self.begun, job);
    }

    fn after(&self, job: u32) {
        count_job(self.rt, &self.ended, job);
    }
}

/// Holds each job until `wanted` jobs have begun, and counts how many began, ended, and were let go before that.
#[derive(Drop)]
struct HoldsUntil<'g, R> {
    rt: &'g R,
    wanted: u32,
    looks: u32,
    begun: Mutex<u32>,
    ended: Mutex<u32>,
    let_go: Mutex<u32>,
}

fn add_one<R: Wait>(rt: &R, count: &Mutex<u32>) {
    let mut count = count.lock(rt);
    *count = count.saturating_add(1);
}

/// Checks this many times, one millisecond apart, whether the count has reached `wanted`. Returns whether it has.
fn comes_to<R: Wait + Clock>(rt: &R, count: &Mutex<u32>, wanted: u32, looks: u32) -> bool {
    for _ in 0..looks {
        if *count.lock(rt) >= wanted {
            return true;
        }
        thread::sleep(rt, Duration::from_millis(1));
    }
    false
}

impl<'g, R: Wait> HoldsUntil<'g, R> {
    fn new(rt: &'g R, wanted: u32, looks: u32) -> HoldsUntil<'g, R> {
        HoldsUntil {
            rt,
            wanted,
            looks,
            begun: Mutex::new(0),
            ended: Mutex::new(0),
            let_go: Mutex::new(0),
        }
    }
}

impl<R: Wait + Clock + Sync> Gate for HoldsUntil<'_, R> {
    fn before(&self, _job: u32) {
        add_one(self.rt, &self.begun);
        if !comes_to(self.rt, &self.begun, self.wanted, self.looks) {
            add_one(self.rt, &self.let_go);
        }
    }

    fn after(&self, _job: u32) {
        add_one(self.rt, &self.ended);
    }
}

/// Holds the first job until `wanted` others are done, and counts how many were done, and whether it was let go before that.
#[derive(Drop)]
struct HoldsFirst<'g, R> {
    rt: &'g R,
    wanted: u32,
    ended: Mutex<u32>,
    let_go: Mutex<u32>,
}

impl<R: Wait + Clock + Sync> Gate for HoldsFirst<'_, R> {
    fn before(&self, job: u32) {
        if job == 1 && !comes_to(self.rt, &self.ended, self.wanted, LOOKS) {
            add_one(self.rt, &self.let_go);
        }
    }

    fn after(&self, _job: u32) {
        add_one(self.rt, &self.ended);
    }
}

fn run_of(alloc: Global, text: &str) -> Result<Run, Fail> {
    let text = lines(alloc, text)?;
    Ok(read_run(alloc, &mut FromRead::new(text.as_bytes()))?)
}

/// Returns how many jobs began, ended, and were let go before both had begun.
fn counts<T: Threads + Wait + Clock + Abort + Sync>(
    rt: &T,
    alloc: Global,
    workers: Workers,
    looks: u32,
) -> Result<(u32, u32, u32), Fail> {
    let run = run_of(alloc, TWO_JOBS)?;
    let gate = HoldsUntil::new(rt, 2, looks);
    let verdict = audit_with(rt, alloc, &run, workers, &gate)?;
    assert!(rt; matches!(verdict, Verdict::Yes { .. }));
    Ok((
        *gate.begun.lock(rt),
        *gate.ended.lock(rt),
        *gate.let_go.lock(rt),
    ))
}

/// Two workers run two jobs at the same time.
#[test]
fn two_jobs_run_side_by_side(rt: HostRuntime) -> Result<(), Fail> {
    let Some(two) = Workers::new(2) else {
        panic!(rt; "two workers");
    };
    assert_eq!(rt; counts(&rt, rt.alloc(), two, LOOKS)?, (2, 2, 0));
    Ok(())
}

/// One worker runs two jobs one after the other.
#[test]
fn one_worker_does_one_job_after_the_other(rt: HostRuntime) -> Result<(), Fail> {
    assert_eq!(rt; counts(&rt, rt.alloc(), Workers::one(), 20)?, (2, 2, 1));
    Ok(())
}

/// While one worker is held at the first job, the other one does all other jobs.
#[test]
fn an_idle_worker_takes_what_is_left(rt: HostRuntime) -> Result<(), Fail> {
    let Some(two) = Workers::new(2) else {
        panic!(rt; "two workers");
    };
    let run = run_of(rt.alloc(), FOUR_JOBS)?;
    let gate = HoldsFirst {
        rt: &rt,
        wanted: 3,
        ended: Mutex::new(0),
        let_go: Mutex::new(0),
    };
    let verdict = audit_with(&rt, rt.alloc(), &run, two, &gate)?;
    assert!(rt; matches!(verdict, Verdict::Yes { .. }));
    assert_eq!(rt; (*gate.ended.lock(&rt), *gate.let_go.lock(&rt)), (4, 0));
    Ok(())
}

/// A gate is called once before and once after each job, whatever the number of workers.
#[test]
fn a_gate_is_told_of_each_job_once(rt: HostRuntime) -> Result<(), Fail> {
    let run = run_of(rt.alloc(), FIVE_JOBS)?;
    for count in [1, 2, 5, 64] {
        let Some(workers) = Workers::new(count) else {
            panic!(rt; "{count} workers");
        };
        let gate = CountsJobs {
            rt: &rt,
            begun: Mutex::new([0; 6]),
            ended: Mutex::new([0; 6]),
        };
        audit_with(&rt, rt.alloc(), &run, workers, &gate)?;
        assert_eq!(rt; *gate.begun.lock(&rt), [0, 1, 1, 1, 1, 1]);
        assert_eq!(rt; *gate.ended.lock(&rt), [0, 1, 1, 1, 1, 1]);
    }
    Ok(())
}
