//! Counts of the fates that a network has drawn.
ghost use Rattle.std.specs.Prelude.{◌≡◌};
ghost use Rattle.totem_net.specs.Drawn.{no_fates, one_more};

use crate::copies::Fate;

/// How many fates were drawn, and what they were.
#[derive(Clone, Copy, Debug, PartialEq, Eq)]
pub struct Drawn {
    /// How many there were: one for each packet and each of its receivers.
    pub fates: u64,
    /// How many of them let no copy arrive.
    pub lost: u64,
    /// How many of them let two copies arrive.
    pub repeated: u64,
}

impl Drawn {
    /// Returns the counts before any fate is drawn.
    pub fn nothing() -> Drawn
        ensures { result ≡ no_fates }
    {
        Drawn {
            fates: 0,
            lost: 0,
            repeated: 0,
        }
    }

    /// Returns the counts after one more fate.
    pub fn with(self, fate: Fate) -> Drawn
        ensures { result ≡ one_more self fate }
    {
        Drawn {
            fates: self.fates.saturating_add(1),
            lost: self.lost.saturating_add(u64::from(fate.copies == 0)),
            repeated: self.repeated.saturating_add(u64::from(fate.copies == 2)),
        }
    }
}
