//! Laws of names. For each kind of name one law relates its parser and its spelling: what is spelled is read, and what
//! is read is spelled so. The readers return what the parsers return, and `Display` writes the spellings. Each value of
//! a name's type has a spelling, and the orders of names are strict and total.
ghost use Rattle.std.specs.Prelude.{◌^◌, ◌<◌, ◌≤◌, ℕ, decimal};
ghost use Rattle.totem_names.specs.Numbers.{number_to, proc_at};
ghost use Rattle.totem_names.specs.Orders.{RingBelow, ConfBelow, MessageBelow, PlaceBelow, IsStrictOrder};
ghost use Rattle.totem_names.specs.Parsers.{ring_at, conf_at, message_at};
ghost use Rattle.totem_names.specs.Spelling.{Spells};
ghost use Rattle.totem_names.specs.Texts.{ring_text, conf_text, message_text, IsUpTo, IsProcess, IsRing, IsConf, IsMessage};

use crate::conf::ConfId;
use crate::message::MsgId;
use crate::process::ProcId;
use crate::ring::RingId;

/// Numbers have one spelling: decimal, without leading zeros.
#[tactic(auto, using(crate::proofs::Spellings::number_spells))]
pub fn number_spelling()
    ensures { (max : ℕ) → 9 ≤ max → max < 2 ^ 32 → Spells (number_to max) decimal (IsUpTo max) }
{}

/// Processes have one spelling.
#[tactic(auto, using(crate::proofs::Spellings::process_spells))]
pub fn process_spelling()
    ensures { Spells proc_at decimal IsProcess }
{}

/// Rings have one spelling.
#[tactic(auto, using(crate::proofs::Spellings::ring_spells))]
pub fn ring_spelling()
    ensures { Spells ring_at ring_text IsRing }
{}

/// Configurations have one spelling.
#[tactic(auto, using(crate::proofs::Spellings::conf_spells))]
pub fn conf_spelling()
    ensures { Spells conf_at conf_text IsConf }
{}

/// Messages have one spelling.
#[tactic(auto, using(crate::proofs::Spellings::message_spells))]
pub fn message_spelling()
    ensures { Spells message_at message_text IsMessage }
{}

/// Each process has a spelling.
pub fn process_fits(process: ProcId)
    ensures { IsProcess process }
{
    let _number = process.number();
}

/// Each ring has a spelling.
pub fn ring_fits(ring: &RingId)
    ensures { IsRing ring.now }
{
    let _number = ring.seq;
    process_fits(ring.rep);
}

/// Each configuration has a spelling.
pub fn conf_fits(conf: &ConfId)
    ensures { IsConf conf.now }
{
    match conf {
        ConfId::Regular(ring) => ring_fits(ring),
        ConfId::Transitional { next, least } => {
            ring_fits(next);
            process_fits(*least);
        }
    }
}

/// Each message has a spelling.
pub fn message_fits(message: &MsgId)
    ensures { IsMessage message.now }
{
    let _number = message.number;
    ring_fits(&message.ring);
}

/// Rings are ordered strictly and totally.
#[tactic(auto, using(crate::proofs::Orderings::ring_strict))]
pub fn ring_order()
    ensures { IsStrictOrder RingBelow }
{}

/// Configurations are ordered strictly and totally.
#[tactic(auto, using(crate::proofs::Orderings::conf_strict))]
pub fn conf_order()
    ensures { IsStrictOrder ConfBelow }
{}

/// Messages are ordered strictly and totally.
#[tactic(auto, using(crate::proofs::Orderings::message_strict))]
pub fn message_order()
    ensures { IsStrictOrder MessageBelow }
{}

/// Places are ordered strictly and totally.
#[tactic(auto, using(crate::proofs::Orderings::place_strict))]
pub fn place_order()
    ensures { IsStrictOrder PlaceBelow }
{}
