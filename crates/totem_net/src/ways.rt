//! The ways of packets to all nodes.
ghost use Rattle.std.specs.Prelude.{◌≡◌, ◌++◌, ◌<◌, ◌^◌, [], ◌+◌, length, IfOk, OnOk, OnErr, replicate};
ghost use Rattle.totem_net.specs.Ways.{deliveries, handed_at, past, all_handed, all_held, past_all};
ghost use Rattle.totem_net.specs.Settling.{changed_at, all_changed, settled};

use crate::address::Address;
use crate::delivery::Delivery;
use crate::drawn::Drawn;
use crate::fates::Fates;
use crate::wire::Wire;
use bytes::Bytes;
use std::alloc::{AllocError, Global};
use std::collections::VecDeque;
use std::marker::Model;
use totem_names::ProcId;

/// The ways to the nodes, which are numbered from 1, and the fates to come.
#[derive(Debug, Drop)]
pub struct Ways {
    wires: Vec<Wire>,
    fates: Fates,
}

impl Model for Ways {
    ghost use Rattle.std.specs.Prelude.{◌<◌, ◌^◌, length};
    ghost use Rattle.totem_net.specs.Ways.{Standing};

    ghost Value = { Standing };

    ghost view = { λ w. record { held = w.wires.items; to_come = w.fates } };

    ghost invariant = { λ w. length w.wires.items < 2 ^ 16 };
}

/// The effects of a packet: the deliveries that it causes, the ways that it changes, in ascending order, and the fates to come.
#[derive(Drop)]
struct Effects {
    handed: Vec<Delivery>,
    changed: VecDeque<Wire>,
    fates: Fates,
}

fn deliver(out: &mut Vec<Delivery>, to: ProcId, packets: Vec<Bytes>) -> Result<(), AllocError>
    ensures { OnOk result (out.new.items ≡ out.old.items ++ deliveries to packets.items) }
{
    for packet in packets {
        out.push(Delivery { to, packet })?;
    }
    Ok(())
}

impl Effects {
    /// Sends the packet along the way to a node, if the packet is for the node.
    fn pass(
        &mut self,
        alloc: Global,
        address: &Address,
        packet: &Bytes,
        node: ProcId,
        wire: &Wire,
    ) -> Result<(), AllocError>
        ensures handed { OnOk result (self.new.handed.items ≡ self.old.handed.items ++ handed_at address.now packet.now node self.old.fates wire.now) }
        ensures changed { OnOk result (self.new.changed.items ≡ self.old.changed.items ++ changed_at address.now packet.now node self.old.fates wire.now) }
        ensures fates { OnOk result (self.new.fates ≡ past address.now node self.old.fates) }
    {
        if !address.is_for(node) {
            return Ok(());
        }
        let passage = wire.pass(alloc, packet, self.fates.next())?;
        deliver(&mut self.handed, node, passage.handed)?;
        self.changed.push_back(passage.wire)?;
        Ok(())
    }
}

impl Ways {
    /// Makes the ways to this many nodes, with nothing held on them.
    pub fn new(alloc: Global, nodes: u16, fates: Fates) -> Result<Ways, AllocError>
        ensures held { IfOk result (λ ways. ways.held ≡ replicate nodes []) }
        ensures fates { IfOk result (λ ways. ways.to_come ≡ fates) }
    {
        let mut wires = Vec::new(alloc);
        'nodes: for _ in 0..nodes {
            wires.push(Wire::new(alloc))?;
        }
        Ok(Ways { wires, fates })
    }

    /// Returns how many fates were drawn, and what they were.
    pub fn drawn(&self) -> Drawn {
        self.fates.drawn()
    }

    /// Returns how many copies are held back on all ways.
    pub fn held(&self) -> u64 {
        self.wires
            .iter()
            .fold(0u64, |held, wire| held.saturating_add(wire.held()))
    }

    /// Returns to how many nodes a packet with this address goes.
    pub fn receivers_of(&self, address: &Address) -> u64 {
        let mut count = 0u64;
        for place in 0..self.wires.len() {
            let node = ProcId::of((place + 1) as u16);
            count = count.saturating_add(u64::from(address.is_for(node)));
        }
        count
    }

    #[tactic(auto, using(crate::proofs::Walking::handed_more, crate::proofs::Walking::changed_more, crate::proofs::Walking::past_more))]
    fn effects(
        &self,
        alloc: Global,
        address: &Address,
        packet: &Bytes,
    ) -> Result<Effects, AllocError>
        ensures handed { IfOk result (λ e. e.handed.items ≡ all_handed address.now packet.now 1 self.now.to_come self.now.held) }
        ensures changed { IfOk result (λ e. e.changed.items ≡ all_changed address.now packet.now 1 self.now.to_come self.now.held) }
        ensures fates { IfOk result (λ e. e.fates ≡ past_all address.now 1 self.now.to_come self.now.held) }
    {
        let mut effects = Effects {
            handed: Vec::new(alloc),
            changed: VecDeque::new(alloc),
            fates: self.fates.try_clone()?,
        };
        for (place, wire) in self.wires.iter().enumerate() {
            let node = ProcId::of((place + 1) as u16);
            effects.pass(alloc, address, packet, node, wire)?;
        }
        Ok(effects)
    }

    fn take_effect(&mut self, address: &Address, effects: Effects) -> Vec<Delivery>
        ensures handed { result.items ≡ effects.handed.items }
        ensures held { self.new.held ≡ settled address.now 1 self.old.held effects.changed.items }
        ensures fates { self.new.to_come ≡ effects.fates }
    {
        let Effects {
            handed,
            changed,
            fates,
        } = effects;
        settle(&mut self.wires, address, changed);
        self.fates = fates;
        handed
    }

    /// Sends a packet to each node that it is for, in ascending order, with a fate for each. Returns what is forwarded. If memory is
    /// refused, nothing changes.
    #[tactic(auto, using(crate::proofs::Walking::settled_of_changed))]
    pub fn carry(
        &mut self,
        alloc: Global,
        address: &Address,
        packet: &Bytes,
    ) -> Result<Vec<Delivery>, AllocError>
        ensures handed { IfOk result (λ out. out.items ≡ all_handed address.now packet.now 1 self.old.to_come self.old.held) }
        ensures held { OnOk result (self.new.held ≡ all_held address.now packet.now 1 self.old.to_come self.old.held) }
        ensures fates { OnOk result (self.new.to_come ≡ past_all address.now 1 self.old.to_come self.old.held) }
        ensures unchanged { OnErr result (self.new ≡ self.old) }
    {
        let effects = self.effects(alloc, address, packet)?;
        Ok(self.take_effect(address, effects))
    }
}

/// Puts the ways that a packet changed in their places.
fn settle(wires: &mut [Wire], address: &Address, changed: VecDeque<Wire>)
    requires { length wires.old < 2 ^ 16 }
    ensures { wires.new ≡ settled address.now 1 wires.old changed.items }
{
    let mut left = changed;
    for (place, wire) in wires.iter_mut().enumerate() {
        if address.is_for(ProcId::of((place + 1) as u16)) {
            if let Some(new) = left.pop_front() {
                *wire = new;
            }
        }
    }
}
