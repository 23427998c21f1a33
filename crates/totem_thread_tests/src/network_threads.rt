use bytes::Bytes;
use std::alloc::{AllocError, Global};
use std::sync::Wait;
use std::test::Fail;
use std::thread;
use std::thread::Threads;
use totem_names::{ProcId, Service};
use totem_net::{
    ClientWord, Fates, Logged, Network, NodeEnds, Pacer, PacketWord, Plan, Switch, ThreadEnd,
    TimerWord, Unwatched,
};

/// Adds the packets that a receiving thread gets, and a full stop at its stop message.
fn received<R: Wait>(
    rt: &R,
    end: &ThreadEnd<PacketWord>,
    all: &mut Vec<u8>,
) -> Result<(), AllocError> {
    for _ in rt.forever() {
        match end.words.recv(rt) {
            Ok(PacketWord::Packet(packet)) => {
                all.extend_from_slice(packet.as_slice())?;
                end.outlet.tell_done(rt, Logged::nothing())?;
            }
            Ok(PacketWord::Stop) => {
                all.push(b'.')?;
                break;
            }
            Err(_) => break,
        }
    }
    Ok(())
}

/// Adds a letter `t` for each timer that a timer thread gets, and a full stop at its stop message.
fn timed<R: Wait>(rt: &R, end: &ThreadEnd<TimerWord>, all: &mut Vec<u8>) -> Result<(), AllocError> {
    for _ in rt.forever() {
        match end.words.recv(rt) {
            Ok(TimerWord::Timer) => {
                all.push(b't')?;
                end.outlet.tell_done(rt, Logged::nothing())?;
            }
            Ok(TimerWord::Stop) => {
                all.push(b'.')?;
                break;
            }
            Err(_) => break,
        }
    }
    Ok(())
}

fn letter(service: Service) -> u8 {
    match service {
        Service::Agreed => b'a',
        Service::Safe => b's',
    }
}

/// Adds the services that a client thread is asked for, and a full stop at its stop message. Broadcasts a packet each time.
fn asked<R: Wait>(
    rt: &R,
    end: &ThreadEnd<ClientWord>,
    all: &mut Vec<u8>,
) -> Result<(), AllocError> {
    for _ in rt.forever() {
        match end.words.recv(rt) {
            Ok(ClientWord::Submit(service)) => {
                end.outlet.send_to_all(rt, Bytes::from_static(b"x"))?;
                all.push(letter(service))?;
                end.outlet.tell_done(rt, Logged::nothing())?;
            }
            Ok(ClientWord::Stop) => {
                all.push(b'.')?;
                break;
            }
            Err(_) => break,
        }
    }
    Ok(())
}

/// Returns a network of three nodes that loses and repeats nothing.
fn network(alloc: Global, ticks: u32, hold: u8) -> Result<Network, Fail> {
    let plan = Plan::new(0, 0, hold).ok_or("a plan")?;
    let first = Bytes::from_static(b"1");
    Ok(Network::new(alloc, 3, ticks, Fates::new(1, plan), first)?)
}

/// A packet of one byte that a node sends before the switch runs: to one node, or to all others.
#[derive(Clone, Copy)]
struct Early {
    from: usize,
    to: Option<u16>,
    byte: u8,
}

impl Early {
    fn send<R: Wait>(self, rt: &R, alloc: Global, nodes: &[NodeEnds]) -> Result<(), AllocError> {
        let Some(ends) = nodes.get(self.from) else {
            return Ok(());
        };
        let packet = Bytes::copy_from_slice(alloc, std::slice::from_ref(&self.byte))?;
        match self.to.and_then(ProcId::new) {
            Some(to) => ends.receiving.outlet.send_to(rt, to, packet),
            None => ends.receiving.outlet.send_to_all(rt, packet),
        }
    }
}

/// Returns packets with these bytes that node 1 sends to node 2.
fn to_second(alloc: Global, bytes: &[u8]) -> Result<Vec<Early>, AllocError> {
    let mut all = Vec::new(alloc);
    for byte in bytes {
        all.push(Early {
            from: 0,
            to: Some(2),
            byte: *byte,
        })?;
    }
    Ok(all)
}

/// A thread of a node.
#[derive(Clone, Copy)]
enum Part {
    Client,
    Timer,
    Receiving,
}

/// What a thread of the node at this place gets.
#[derive(Drop)]
struct Given {
    part: Part,
    place: usize,
    all: Vec<u8>,
}

impl Given {
    /// Takes channel messages until the stop message. If memory is refused it ends at once, without a full stop.
    fn take<R: Wait>(&mut self, rt: &R, nodes: &[NodeEnds]) -> Result<(), AllocError> {
        let Some(ends) = nodes.get(self.place) else {
            return Ok(());
        };
        match self.part {
            Part::Client => asked(rt, &ends.client, &mut self.all),
            Part::Timer => timed(rt, &ends.timer, &mut self.all),
            Part::Receiving => received(rt, &ends.receiving, &mut self.all),
        }
    }

    /// Returns all that a client or a timer thread got, or the last byte that a receiving thread got.
    fn told(&self) -> &[u8] {
        match self.part {
            Part::Receiving => &self.all[self.all.len().saturating_sub(1)..],
            _ => &self.all,
        }
    }
}

/// Returns the threads of three nodes before they get anything.
fn nothing_given(alloc: Global) -> Result<Vec<Given>, AllocError> {
    let mut given = Vec::new(alloc);
    for part in [Part::Client, Part::Timer, Part::Receiving] {
        for place in 0..3 {
            given.push(Given {
                part,
                place,
                all: Vec::new(alloc),
            })?;
        }
    }
    Ok(given)
}

/// Runs all threads of a network.
fn run_all<R: Threads + Wait + Sync>(
    rt: &R,
    alloc: Global,
    switch: Switch,
    pacer: Pacer,
    nodes: &[NodeEnds],
    given: &mut [Given],
) -> Result<(), AllocError> {
    let threads = given.iter_mut();
    thread::scope(
        thread::scope_env(),
        rt,
        move |scope| -> Result<(), AllocError> {
            scope.spawn(move || pacer.run(rt))?;
            let switching = scope.spawn(move || switch.run_in_pace(rt, alloc, &mut Unwatched))?;
            for one in threads {
                scope.spawn(move || one.take(rt, nodes))?;
            }
            switching.join(rt)
        },
    )
}

/// Runs a network for this many ticks, in which these packets are sent before the switch runs.
fn give_all<R: Threads + Wait + Sync>(
    rt: &R,
    alloc: Global,
    ticks: u32,
    hold: u8,
    early: &[Early],
    given: &mut [Given],
) -> Result<(), Fail> {
    let Network {
        switch,
        pacer,
        nodes,
    } = network(alloc, ticks, hold)?;
    for packet in early {
        packet.send(rt, alloc, &nodes)?;
    }
    Ok(run_all(rt, alloc, switch, pacer, &nodes, given)?)
}

/// Returns what the receiving threads of such a network get, one after the other.
fn received_by_all<R: Threads + Wait + Sync>(
    rt: &R,
    alloc: Global,
    ticks: u32,
    hold: u8,
    early: &[Early],
) -> Result<Vec<u8>, Fail> {
    let mut given = nothing_given(alloc)?;
    give_all(rt, alloc, ticks, hold, early, &mut given)?;
    let mut all = Vec::new(alloc);
    for one in &given {
        if let Part::Receiving = one.part {
            all.extend_from_slice(&one.all)?;
        }
    }
    Ok(all)
}

/// Three nodes broadcast, and the second one sends itself a packet too.
const BROADCASTS: [Early; 4] = [
    Early {
        from: 0,
        to: None,
        byte: b'a',
    },
    Early {
        from: 1,
        to: None,
        byte: b'b',
    },
    Early {
        from: 1,
        to: Some(2),
        byte: b't',
    },
    Early {
        from: 2,
        to: None,
        byte: b'c',
    },
];

/// The switch forwards each packet to its receivers, and then stops the receiving threads.
#[test]
fn packets_go_through_the_switch(rt: HostRuntime) -> Result<(), Fail> {
    let all = received_by_all(&rt, rt.alloc(), 7, 0, &BROADCASTS)?;
    assert_eq!(rt; all.as_slice(), b"1bc.atc.ab.".as_slice());
    Ok(())
}

// From the seed 1 these packets are held for 3, 0, 0, 3, 2, 2, 1 and 1 further packets.
/// The switch forwards a copy that is held back after as many further packets as its fate says. What is held at the end is lost.
#[test]
fn copies_are_held_back_by_the_switch(rt: HostRuntime) -> Result<(), Fail> {
    let early = to_second(rt.alloc(), b"abcdefgh")?;
    let all = received_by_all(&rt, rt.alloc(), 7, 3, &early)?;
    assert_eq!(rt; all.as_slice(), b"1.bcadefg..".as_slice());
    Ok(())
}

/// No packet is lost because its receiver has many others to handle.
#[test]
fn no_packet_is_lost_for_want_of_room(rt: HostRuntime) -> Result<(), Fail> {
    let early = to_second(rt.alloc(), &[128; 65])?;
    let all = received_by_all(&rt, rt.alloc(), 48, 0, &early)?;
    let many = all.iter().filter(|byte| **byte >= 128);
    assert_eq!(rt; many.count(), 65);
    Ok(())
}

/// Returns what the client and timer threads of a network get, and the last bytes of what its receiving threads get.
fn all_given<R: Threads + Wait + Sync>(rt: &R, alloc: Global) -> Result<Vec<u8>, Fail> {
    let mut given = nothing_given(alloc)?;
    give_all(rt, alloc, 48, 0, &[], &mut given)?;
    let mut all = Vec::new(alloc);
    for one in &given {
        all.extend_from_slice(one.told())?;
    }
    Ok(all)
}

/// Each thread of a node gets its own channel messages and a stop message.
#[test]
fn each_thread_has_its_words(rt: HostRuntime) -> Result<(), Fail> {
    let all = all_given(&rt, rt.alloc())?;
    assert_eq!(rt; all.as_slice(), b"as.sa.as.tt.tt.tt....".as_slice());
    Ok(())
}
