//! Runs nodes in threads.
ghost use Rattle.std.specs.Prelude.{◌≡◌, ◌<◌, ◌≤◌, All, IfOk, IfErr, map};
ghost use Rattle.totem_net.specs.Nodes.{node_numbers};
ghost use Rattle.totem_threads.specs.Faults.{EndsRun};
ghost use Rattle.totem_threads.specs.Starts.{IsInRange, start_of, starts};
ghost use Rattle.totem_names.specs.declared.version.Version.TheVariants.{One};
ghost use Rattle.totem_evs.specs.Lives.{HasFirstLives};
ghost use Rattle.totem_threads.specs.FirstLives.{IsFirstBook};
ghost use Rattle.totem_threads.specs.Books.{IsRunOf};

use crate::fault::ThreadsFault;
use crate::firsts::first_packet;
use crate::logs::{all_replayed, run_of};
use crate::node::run_node;
use crate::plan::RunPlan;
use std::alloc::Global;
use std::sync::Wait;
use std::thread;
use std::thread::{Promise, PromisedHandle, Threads};
use totem_books::ClosedBook;
use totem_evs::Run;
use totem_names::ProcId;
use totem_net::{Fates, Network, Progress, Start};

/// What a thread promises: either the book of this node in a run of this many, or why there is no run.
#[derive(Clone, Copy)]
struct BookOf {
    node: ProcId,
    nodes: u16,
}

impl Promise<Result<ClosedBook, ThreadsFault>> for BookOf {
    ghost use Rattle.std.specs.Prelude.{◌≡◌, IfOk, IfErr};
    ghost use Rattle.totem_threads.specs.Faults.{EndsRun};
    ghost use Rattle.totem_threads.specs.FirstLives.{IsFirstBook};
    ghost use Rattle.totem_threads.specs.Starts.{start_of};

    ghost kept_by = { λ p r. IfOk r (λ book. book.start ≡ start_of p.nodes p.node) × IfOk r IsFirstBook × IfErr r EndsRun };
}

type NodeHandle = PromisedHandle<Result<ClosedBook, ThreadsFault>, BookOf>;

/// Waits until each of the threads has ended, and returns their books.
fn joined<R: Threads>(
    rt: &R,
    alloc: Global,
    running: Vec<NodeHandle>,
) -> Result<Vec<ClosedBook>, ThreadsFault>
    ensures books { IfOk result (λ books. map (λ b. b.start) books.items
        ≡ map (λ h. start_of h.promise.nodes h.promise.node) running.items) }
    ensures first { IfOk result (λ books. All IsFirstBook books.items) }
    ensures fault { IfErr result EndsRun }
{
    let mut books = Vec::with_capacity(alloc, running.len())?;
    for handle in running {
        books.push(handle.join(rt)?)?;
    }
    Ok(books)
}

/// Runs each node in a thread of its own and the switch in this one, and returns the nodes' books.
fn run_network<S: Start, R: Threads + Wait + Sync, P: Progress>(
    rt: &R,
    alloc: Global,
    count: u16,
    network: Network,
    start: &S,
    progress: &mut P,
) -> Result<Vec<ClosedBook>, ThreadsFault>
    requires few { (0 < count) × (count ≤ 32) }
    requires nodes { map (λ ends. ends.node) network.nodes.items ≡ node_numbers count }
    ensures books { IfOk result (λ books. map (λ b. b.start) books.items ≡ starts count) }
    ensures first { IfOk result (λ books. All IsFirstBook books.items) }
    ensures fault { IfErr result EndsRun }
{
    let Network {
        switch,
        pacer,
        nodes,
    } = network;
    thread::scope(
        thread::scope_env(),
        rt,
        move |scope| -> Result<Vec<ClosedBook>, ThreadsFault>
            requires few { (0 < count) × (count ≤ 32) }
            requires nodes { map (λ ends. ends.node) nodes.items ≡ node_numbers count }
            ensures books { IfOk result (λ books. map (λ b. b.start) books.items ≡ starts count) }
            ensures first { IfOk result (λ books. All IsFirstBook books.items) }
            ensures fault { IfErr result EndsRun }
        {
            let mut running = Vec::with_capacity(alloc, nodes.len())?;
            for ends in nodes {
                let promise = BookOf {
                    node: ends.node,
                    nodes: count,
                };
                let node = move || -> Result<ClosedBook, ThreadsFault>
                    requires { (0 < count) × (count ≤ 32) }
                { run_node(rt, alloc, count, ends, start) };
                let Ok(handle) = scope.spawn_with(promise, node) else {
                    return Err(ThreadsFault::Memory);
                };
                running.push(handle)?;
            }
            let Ok(pacing) = scope.spawn(move || pacer.run(rt)) else {
                return Err(ThreadsFault::Memory);
            };
            let served = switch.run_in_pace(rt, alloc, progress);
            pacing.join(rt);
            let books = joined(rt, alloc, running)?;
            served?;
            Ok(books)
        },
    )
}

/// Runs this many nodes in threads, on ring 4.1, over a network that follows the plan, until the ticks are used up
/// (docs/PROTOCOL.md, "A run in threads"). Waits for all threads, and returns the run that the nodes recorded, in version 1,
/// with their books in ascending order. No contract says which run comes out; docs/PROTOCOL.md, "The network", does. At each tick the switch
/// reports how far the run is.
pub fn run_nodes<S: Start, R: Threads + Wait + Sync, P: Progress>(
    rt: &R,
    alloc: Global,
    plan: RunPlan,
    start: &S,
    progress: &mut P,
) -> Result<(Run, Vec<ClosedBook>), ThreadsFault>
    requires { IsInRange plan }
    ensures run { IfOk result (λ made. IsRunOf plan.nodes made.1.items made.0.logs) }
    ensures version { IfOk result (λ made. made.0.version ≡ One) }
    ensures lives { IfOk result (λ made. All HasFirstLives made.0.logs) }
    ensures fault { IfErr result EndsRun }
{
    let fates = Fates::new(plan.seed, plan.plan);
    let first = first_packet(alloc)?;
    let network = Network::new(alloc, plan.nodes, plan.ticks, fates, first)?;
    let books = run_network(rt, alloc, plan.nodes, network, start, progress)?;
    let run = run_of(alloc, plan.nodes, books.as_slice())?;
    all_replayed(&books);
    Ok((run, books))
}
