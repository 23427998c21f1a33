//! How many packets may be forwarded at a tick.
ghost use Rattle.std.specs.Prelude.{◌≡◌};
ghost use Rattle.totem_net.specs.Credits.{most, begun, spent, earned};

/// How many packets may be forwarded. Each tick adds as many as there are nodes, up to what some rounds of a gathering take.
#[derive(Clone, Copy, PartialEq, Eq)]
pub struct Credit {
    /// How many there are now.
    pub left: u64,
    /// How many nodes there are.
    pub nodes: u16,
}

impl Credit {
    /// Returns the credit at the start: the most.
    pub fn new(nodes: u16) -> Credit
        ensures { result ≡ begun nodes }
    {
        Credit {
            left: most(nodes),
            nodes,
        }
    }

    /// Returns the credit after this many packets were forwarded.
    pub fn less(self, packets: u64) -> Credit
        ensures { result ≡ spent self packets }
    {
        Credit {
            left: self.left.saturating_sub(packets),
            nodes: self.nodes,
        }
    }

    /// Returns the credit after a tick.
    pub fn after_tick(self) -> Credit
        ensures { result ≡ earned self }
    {
        Credit {
            left: self
                .left
                .saturating_add(u64::from(self.nodes))
                .min(most(self.nodes)),
            nodes: self.nodes,
        }
    }
}

/// Returns the most credit: enough for eight broadcasts of each node to all nodes.
fn most(nodes: u16) -> u64
    ensures { result ≡ most nodes }
{
    let nodes = u64::from(nodes);
    8 * nodes * nodes
}
