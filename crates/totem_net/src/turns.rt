//! The ticks of a run, and the turns that they bring.
ghost use Rattle.std.specs.Prelude.{◌≡◌, ◌↔◌, ◌<◌, IsTrue};
ghost use Rattle.totem_net.specs.Turns.{ticked, next_turn, nth_turn, turn_at};

use crate::turn::Turn;
use std::marker::Model;
use totem_names::{ProcId, Service};

/// How many ticks there are to each turn.
const TICKS_OF_A_TURN: u32 = 8;

/// The ticks of a run with the given number of nodes, numbered from 1. Every eighth tick brings a turn.
#[derive(Debug, Drop)]
pub struct Turns {
    nodes: u16,
    ticks: u32,
    passed: u32,
}

impl Model for Turns {
    ghost use Rattle.std.specs.Prelude.{◌<◌, ◌≤◌};
    ghost use Rattle.totem_net.specs.Turns.{Count};

    ghost Value = { Count };

    ghost view = { λ t. record { nodes = t.nodes; ticks = t.ticks; passed = t.passed } };

    ghost invariant = { λ t. (0 < t.nodes) × (t.passed ≤ t.ticks) };
}

impl Turns {
    /// Returns the state before the first tick, with the given number of ticks to come.
    pub fn new(nodes: u16, ticks: u32) -> Turns
        requires { 0 < nodes }
        ensures nodes { result.nodes ≡ nodes }
        ensures ticks { result.ticks ≡ ticks }
        ensures passed { result.passed ≡ 0 }
    {
        Turns {
            nodes,
            ticks,
            passed: 0,
        }
    }

    /// Returns whether the ticks are used up.
    pub fn are_over(&self) -> bool
        ensures { IsTrue result ↔ (self.now.passed ≡ self.now.ticks) }
    {
        self.passed == self.ticks
    }

    /// Returns how many ticks have passed.
    pub fn passed(&self) -> u32
        ensures { result ≡ self.now.passed }
    {
        self.passed
    }

    /// Returns how many ticks there are in all.
    pub fn ticks(&self) -> u32
        ensures { result ≡ self.now.ticks }
    {
        self.ticks
    }

    fn nth(&self, n: u32) -> Turn
        ensures { result ≡ nth_turn self.now.nodes n }
    {
        let place = n % u32::from(self.nodes);
        let service = if n % 2 == 0 {
            Service::Agreed
        } else {
            Service::Safe
        };
        Turn {
            node: ProcId::of((place + 1) as u16),
            service,
        }
    }

    fn at(&self, tick: u32) -> Option<Turn>
        ensures { result ≡ turn_at self.now.nodes tick }
    {
        if tick % TICKS_OF_A_TURN != 0 {
            return None;
        }
        Some(self.nth((tick / TICKS_OF_A_TURN).saturating_sub(1)))
    }

    /// Returns the turn that the last tick brought, if any.
    pub fn last(&self) -> Option<Turn>
        ensures { result ≡ turn_at self.now.nodes self.now.passed }
    {
        self.at(self.passed)
    }

    /// Lets the next tick pass, and returns the turn that it brings, if any. If the ticks are used up, nothing changes.
    pub fn tick(&mut self) -> Option<Turn>
        ensures turn { result ≡ next_turn self.old }
        ensures count { self.new ≡ ticked self.old }
    {
        if self.passed >= self.ticks {
            return None;
        }
        self.passed += 1;
        self.at(self.passed)
    }
}
