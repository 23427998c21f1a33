//! What the network does to packets.
ghost use Rattle.std.specs.Prelude.{◌≡◌, ◌+◌, ◌<◌, ◌≤◌, MatchOption};

use std::marker::Model;

/// How many of a hundred packets are lost and how many are repeated, at most a hundred in all, and how many further packets
/// a held copy lets pass at most (docs/PROTOCOL.md, "The network").
#[derive(Clone, Copy, Debug, PartialEq, Eq)]
pub struct Plan {
    pub lose: u8,
    pub repeat: u8,
    pub hold: u8,
}

impl Model for Plan {
    ghost use Rattle.std.specs.Prelude.{◌+◌, ◌≤◌};
    ghost use Rattle.totem_net.specs.Plans.{Odds};

    ghost Value = { Odds };

    ghost view = { λ p. record { lose = p.lose; repeat = p.repeat; hold = p.hold } };

    ghost invariant = { λ p. p.lose + p.repeat ≤ 100 };

    ghost inverse = { λ o. record { lose = o.lose; repeat = o.repeat; hold = o.hold } };
}

impl Plan {
    /// Returns the plan with these numbers, or `None` if the sum of `lose` and `repeat` is above 100.
    pub fn new(lose: u8, repeat: u8, hold: u8) -> Option<Plan>
        ensures none { MatchOption result (100 < lose + repeat) (λ _. lose + repeat ≤ 100) }
        ensures lose { MatchOption result (100 < lose + repeat) (λ p. p.lose ≡ lose) }
        ensures repeat { MatchOption result (100 < lose + repeat) (λ p. p.repeat ≡ repeat) }
        ensures hold { MatchOption result (100 < lose + repeat) (λ p. p.hold ≡ hold) }
    {
        if u16::from(lose) + u16::from(repeat) > 100 {
            return None;
        }
        Some(Plan { lose, repeat, hold })
    }
}
