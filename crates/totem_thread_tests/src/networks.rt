use bytes::Bytes;
use std::alloc::{AllocError, Global};
use std::fmt::Write;
use std::test::Fail;
use totem_names::{ProcId, Service};
use totem_net::{Address, Delivery, Drawn, Fate, Fates, Plan, Turns, Ways, fate};

fn of_three(fate: Fate) -> (u8, u8, u8) {
    (fate.copies, fate.first, fate.second)
}

fn node(number: u16) -> Result<ProcId, Fail> {
    Ok(ProcId::new(number).ok_or("no process has the number 0")?)
}

/// Adds the packets that are forwarded: the number of each receiver and the packet, one after the other.
fn push_handed(text: &mut String, deliveries: &[Delivery]) -> Result<(), AllocError> {
    for delivery in deliveries {
        let packet = std::str::from_utf8(delivery.packet.as_slice()).unwrap_or("?");
        write!(text, "{}{packet} ", delivery.to.number())?;
    }
    Ok(())
}

/// Returns the address of a packet: a node, or after `-` every node but one.
fn address(to: &str) -> Option<Address> {
    match to.strip_prefix('-') {
        Some(sender) => Some(Address::AllBut(ProcId::new(sender.parse().ok()?)?)),
        None => Some(Address::One(ProcId::new(to.parse().ok()?)?)),
    }
}

/// Adds the packets that are forwarded after a packet.
fn push_carried(
    alloc: Global,
    ways: &mut Ways,
    text: &mut String,
    address: &Address,
    packet: &Bytes,
) -> Result<(), AllocError> {
    let deliveries = ways.carry(alloc, address, packet)?;
    push_handed(text, deliveries.as_slice())
}

fn carry(
    alloc: Global,
    ways: &mut Ways,
    text: &mut String,
    address: &Address,
    packet: &str,
) -> Result<(), AllocError> {
    let packet = Bytes::copy_from_slice(alloc, packet.as_bytes())?;
    push_carried(alloc, ways, text, address, &packet)
}

/// Sends one packet, given as the packet, `>` and its address, and adds the packets that are forwarded.
fn pass(alloc: Global, ways: &mut Ways, text: &mut String, word: &str) -> Result<(), AllocError> {
    let (packet, to) = word.split_once('>').unwrap_or((word, ""));
    match address(to) {
        Some(address) => carry(alloc, ways, text, &address, packet),
        None => text.push_str("no receiver"),
    }
}

fn all_passed(alloc: Global, ways: &mut Ways, words: &str) -> Result<String, AllocError> {
    let mut text = String::new(alloc);
    for word in words.split_whitespace() {
        pass(alloc, ways, &mut text, word)?;
        text.push_str("| ")?;
    }
    Ok(text)
}

/// Returns how many fates were drawn, and how many of them let no copy and two copies arrive.
fn counts(drawn: Drawn) -> (u64, u64, u64) {
    (drawn.fates, drawn.lost, drawn.repeated)
}

/// Returns the packets that are forwarded after each packet, on the ways to this many nodes, and the counts of fates.
fn carried(
    alloc: Global,
    nodes: u16,
    fates: Fates,
    words: &str,
) -> Result<(String, (u64, u64, u64)), AllocError> {
    let mut ways = Ways::new(alloc, nodes, fates)?;
    let text = all_passed(alloc, &mut ways, words)?;
    Ok((text, counts(ways.drawn())))
}

/// A random word gives a packet's fate under a plan.
#[test]
fn words_give_fates(rt: HostRuntime) -> Result<(), Fail> {
    let plan = Plan::new(10, 20, 3).ok_or("a plan")?;
    let told = [of_three(fate(123456, plan)), of_three(fate(987615, plan))];
    assert_eq!(rt;
        (told, fate(2005, plan).copies),
        ([(1, 2, 0), (2, 0, 2)], 0)
    );
    Ok(())
}

// The words of PCG32 from the seed 1 are 866585574, 2109535214, 3403630417, 296513984, ..
/// Fates are those of the generator's words, also in a copy and for the n-th fate.
#[test]
fn fates_are_those_of_the_generators_words(rt: HostRuntime) -> Result<(), Fail> {
    let plan = Plan::new(10, 20, 3).ok_or("a plan")?;
    let mut fates = Fates::new(1, plan);
    assert_eq!(rt; of_three(fates.next()), (1, 3, 2));
    let mut copy = fates.try_clone()?;
    assert_eq!(rt; of_three(fates.next()), (2, 0, 1));
    assert_eq!(rt; of_three(copy.next()), (2, 0, 1));
    assert_eq!(rt; of_three(fates.next()), (2, 0, 3));
    assert_eq!(rt;
        (counts(fates.drawn()), counts(copy.drawn())),
        ((3, 0, 2), (2, 0, 1))
    );
    assert_eq!(rt; of_three(Fates::nth(1, plan, 3)), (1, 3, 3));
    Ok(())
}

// From the seed 1 these packets have, in order, one copy held for 3; two for 0 and 1; two for 0 and 3; one for 3; one
// for 2; one for 2; one for 1; two for 1 and 2.
/// A copy that is held is forwarded after as many later packets as its fate says.
#[test]
fn copies_let_further_packets_by(rt: HostRuntime) -> Result<(), Fail> {
    let plan = Plan::new(10, 20, 3).ok_or("a plan")?;
    let words = "a>1 b>1 c>1 d>1 e>1 f>1 g>1 h>1";
    let (text, counts) = carried(rt.alloc(), 1, Fates::new(1, plan), words)?;
    assert_eq!(rt;
        (text.as_str(), counts),
        ("| 1b | 1c 1b | 1a | | 1c | 1d 1e | 1f 1g | ", (8, 0, 3))
    );
    Ok(())
}

/// A broadcast goes to all nodes but its sender, and another packet to its one receiver.
#[test]
fn broadcasts_go_to_all_others(rt: HostRuntime) -> Result<(), Fail> {
    let two = node(2)?;
    let (own, all) = (Address::One(two), Address::AllBut(two));
    assert_eq!(rt; (own.is_for(two), all.is_for(two)), (true, false));
    let plan = Plan::new(0, 0, 0).ok_or("a plan")?;
    let (text, counts) = carried(rt.alloc(), 3, Fates::new(7, plan), "m>-2 t>2")?;
    assert_eq!(rt; (text.as_str(), counts), ("1m 3m | 2t | ", (3, 0, 0)));
    Ok(())
}

/// Lets seven ticks pass, which give no turn, and then an eighth.
fn eighth(turns: &mut Turns) -> Option<(u16, Service)> {
    for _ in 0..7 {
        if turns.tick().is_some() {
            return None;
        }
    }
    let turn = turns.tick()?;
    Some((turn.node.number(), turn.service))
}

/// Every eighth tick gives a client its turn, until the ticks are used up.
#[test]
fn every_eighth_tick_brings_a_turn(rt: HostRuntime) {
    let mut turns = Turns::new(3, 32);
    assert_eq!(rt; eighth(&mut turns), Some((1, Service::Agreed)));
    assert_eq!(rt; eighth(&mut turns), Some((2, Service::Safe)));
    assert_eq!(rt; eighth(&mut turns), Some((3, Service::Agreed)));
    assert!(rt; !turns.are_over());
    assert_eq!(rt; eighth(&mut turns), Some((1, Service::Safe)));
    assert!(rt; turns.are_over());
    assert_eq!(rt; eighth(&mut turns), None);
}
