//! The way to one receiver.
ghost use Rattle.std.specs.Prelude.{◌≡◌, ◌++◌, [], IfOk, OnOk};
ghost use Rattle.totem_net.specs.Wires.{copies_made, due, kept, handed_on, still_held};

use crate::copies::Fate;
use crate::held::HeldCopy;
use bytes::Bytes;
use std::alloc::{AllocError, Global};
use std::marker::Model;

/// The copies that are held back on the way to one receiver, in the order in which they arrived.
#[derive(Debug, Drop)]
pub struct Wire {
    held: Vec<HeldCopy>,
}

impl Model for Wire {
    ghost use Rattle.std.specs.Prelude.{List};
    ghost use Rattle.totem_net.specs.declared.held.HeldCopy.{HeldCopy};

    ghost Value = { List HeldCopy };

    ghost view = { λ w. w.held.items };
}

/// The effect of a packet that arrives on a way.
#[derive(Drop)]
pub struct Passage {
    /// The packets that are forwarded to the receiver, in order.
    pub handed: Vec<Bytes>,
    /// The way after that.
    pub wire: Wire,
}

fn copies_of(alloc: Global, packet: &Bytes, fate: Fate) -> Result<Vec<HeldCopy>, AllocError>
    ensures { IfOk result (λ copies. copies.items ≡ copies_made fate packet.now) }
{
    let mut copies = Vec::new(alloc);
    if fate.copies == 0 {
        return Ok(copies);
    }
    copies.push(HeldCopy::new(fate.first, packet)?)?;
    if fate.copies == 1 {
        return Ok(copies);
    }
    copies.push(HeldCopy::new(fate.second, packet)?)?;
    Ok(copies)
}

fn hand_on(out: &mut Vec<Bytes>, copies: &[HeldCopy], passed: u8) -> Result<(), AllocError>
    ensures { OnOk result (out.new.items ≡ out.old.items ++ due passed copies.now) }
{
    for copy in copies {
        if copy.left <= passed {
            out.push(copy.packet.clone()?)?;
        }
    }
    Ok(())
}

fn keep(held: &mut Vec<HeldCopy>, copies: &[HeldCopy], passed: u8) -> Result<(), AllocError>
    ensures { OnOk result (held.new.items ≡ held.old.items ++ kept passed copies.now) }
{
    for copy in copies {
        if passed < copy.left {
            held.push(HeldCopy::new(copy.left - passed, &copy.packet)?)?;
        }
    }
    Ok(())
}

impl Wire {
    /// Makes a way on which nothing is held.
    pub fn new(alloc: Global) -> Wire
        ensures { result ≡ [] }
    {
        Wire {
            held: Vec::new(alloc),
        }
    }

    /// Returns how many copies are held back.
    pub fn held(&self) -> u64 {
        self.held.len() as u64
    }

    /// Lets a packet arrive with its fate. First the packet's own copies that are not held are forwarded, then the held copies
    /// that are due, in the order in which they arrived.
    pub fn pass(&self, alloc: Global, packet: &Bytes, fate: Fate) -> Result<Passage, AllocError>
        ensures handed { IfOk result (λ passage. passage.handed.items ≡ handed_on fate packet.now self.now) }
        ensures held { IfOk result (λ passage. passage.wire ≡ still_held fate packet.now self.now) }
    {
        let copies = copies_of(alloc, packet, fate)?;
        let mut handed = Vec::new(alloc);
        hand_on(&mut handed, &copies, 0)?;
        hand_on(&mut handed, &self.held, 1)?;
        let mut held = Vec::new(alloc);
        keep(&mut held, &self.held, 1)?;
        keep(&mut held, &copies, 0)?;
        Ok(Passage {
            handed,
            wire: Wire { held },
        })
    }
}
