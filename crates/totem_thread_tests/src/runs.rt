//! The packets of a run in threads. What else the threads do is tested with the public call `run_threads` (totem_cluster_tests).
ghost use Rattle.totem_threads.specs.Starts.{IsInRange};

use std::alloc::Global;
use std::sync::{Mutex, Wait};
use std::test::Fail;
use std::thread::{self, Threads};
use std::time::{Clock, Duration};
use totem_books::{Call, ClosedBook, Reply};
use totem_core::Input;
use totem_names::ProcId;
use totem_net::{Logged, Plan, Progress, Quiet, Start, Tally, Traffic};
use totem_ring::To;
use totem_threads::{RunPlan, run_nodes};

/// Keeps what the switch did with packets.
#[derive(Clone, Copy)]
struct Watch {
    traffic: Option<Traffic>,
}

impl Progress for Watch {
    fn ticked(&mut self, _passed: u32, _ticks: u32, _logged: Logged) {}

    fn carried(&mut self, traffic: Traffic) {
        self.traffic = Some(traffic);
    }

    fn ended(&mut self, _made: Option<Tally>) {}
}

/// What the books of a run say of its packets: how many were sent, once for each receiver, and how many came.
#[derive(Clone, Copy)]
struct Packets {
    sent: u64,
    came: u64,
}

impl Packets {
    fn count(&mut self, others: u64, call: &Call) {
        if matches!(call.input, Input::Packet(_)) {
            self.came = self.came.saturating_add(1);
        }
        if let Reply::Done(out) = &call.reply {
            for (to, _) in &out.packets {
                let receivers = if matches!(to, To::All) { others } else { 1 };
                self.sent = self.sent.saturating_add(receivers);
            }
        }
    }
}

fn counted(others: u64, books: &[ClosedBook]) -> Packets {
    let mut packets = Packets { sent: 0, came: 0 };
    for book in books {
        for call in book.calls() {
            packets.count(others, call);
        }
    }
    packets
}

/// Runs nodes in threads. Returns what the books and what the switch say of the packets.
fn both_counts<R: Threads + Wait + Sync>(
    rt: &R,
    alloc: Global,
    plan: RunPlan,
) -> Result<(Packets, Traffic), Fail>
    requires { IsInRange plan }
{
    let others = u64::from(plan.nodes).saturating_sub(1);
    let mut watch = Watch { traffic: None };
    let Ok((_, books)) = run_nodes(rt, alloc, plan, &Quiet, &mut watch) else {
        return Err(Fail::from("no run"));
    };
    let traffic = watch.traffic.ok_or("no traffic was reported")?;
    Ok((counted(others, &books), traffic))
}

/// Whatever nodes do, no packet is lost but by its fate: each copy that was made comes to its receiver, or is held back or waits at the end;
/// and each packet that a node sends gets its fate, or was sent in the last tick.
#[test]
fn packets_are_lost_by_their_fates_alone(rt: HostRuntime) -> Result<(), Fail> {
    for (nodes, seed, lose, repeat, hold) in [
        (3, 2, 10, 0, 0),
        (8, 2, 2, 5, 1),
        (16, 3, 10, 20, 3),
    ] {
        let network = Plan::new(lose, repeat, hold).ok_or("a plan")?;
        let plan = RunPlan::new(nodes, 1000, seed, network).ok_or("a plan of a run")?;
        let (packets, traffic) = both_counts(&rt, rt.alloc(), plan)?;
        assert_eq!(rt; packets.came, traffic.forwarded, "{nodes}");
        assert_eq!(rt; packets.sent.saturating_add(1), traffic.sent, "{nodes}");
        let made = traffic
            .sent
            .saturating_sub(traffic.lost)
            .saturating_add(traffic.repeated);
        let left = traffic
            .held
            .saturating_add(traffic.waiting)
            .saturating_add(traffic.late);
        assert_eq!(rt; made, packets.came.saturating_add(left), "{nodes}");
        let share = traffic
            .lost
            .saturating_mul(100)
            .div_ceil(traffic.sent.max(1));
        assert!(rt; share.abs_diff(u64::from(lose)) <= 3, "{nodes}: {share}");
    }
    Ok(())
}

/// Holds node 2 for a moment when it begins, and keeps how many ticks had passed by the end of it.
#[derive(Drop)]
struct Holding<'a, R> {
    rt: &'a R,
    passed: &'a Mutex<u32>,
    meanwhile: Mutex<u32>,
}

impl<R: Wait + Clock + Sync> Start for Holding<'_, R> {
    fn begun(&self, node: ProcId) {
        if node.number() == 2 {
            thread::sleep(self.rt, Duration::from_millis(200));
            let passed = *self.passed.lock(self.rt);
            *self.meanwhile.lock(self.rt) = passed;
        }
    }
}

/// Keeps how many ticks have passed.
#[derive(Drop)]
struct Passing<'a, R> {
    rt: &'a R,
    passed: &'a Mutex<u32>,
}

impl<R: Wait> Progress for Passing<'_, R> {
    fn ticked(&mut self, passed: u32, _ticks: u32, _logged: Logged) {
        *self.passed.lock(self.rt) = passed;
    }

    fn carried(&mut self, _traffic: Traffic) {}

    fn ended(&mut self, _made: Option<Tally>) {}
}

/// It is the receiving thread that reports that its node has begun: as long as it does so, the node takes no packet, so no more than the
/// few ticks pass in which the token comes to it.
#[test]
fn a_node_begins_in_its_receiving_thread(rt: HostRuntime) -> Result<(), Fail> {
    let network = Plan::new(0, 0, 0).ok_or("a plan")?;
    let plan = RunPlan::new(3, 80, 1, network).ok_or("a plan of a run")?;
    let passed = Mutex::new(0);
    let holding = Holding {
        rt: &rt,
        passed: &passed,
        meanwhile: Mutex::new(0),
    };
    let mut passing = Passing {
        rt: &rt,
        passed: &passed,
    };
    if run_nodes(&rt, rt.alloc(), plan, &holding, &mut passing).is_err() {
        return Err(Fail::from("no run"));
    }
    assert!(rt; *holding.meanwhile.lock(&rt) <= 3);
    assert_eq!(rt; *passed.lock(&rt), 80);
    Ok(())
}
