//! Reports of the progress of a run.
ghost use Rattle.std.specs.Prelude.{◌≡◌};
ghost use Rattle.totem_net.specs.Logged.{nothing, together};

/// Counts of what all nodes of a run have logged so far.
#[derive(Clone, Copy, Debug, PartialEq, Eq)]
pub struct Logged {
    /// How many messages were delivered, counted at each node.
    pub deliveries: u64,
    /// How many regular configurations were installed, counted at each node.
    pub configurations: u64,
}

impl Logged {
    /// Returns the counts of a node that has logged nothing.
    pub fn nothing() -> Logged
        ensures { result ≡ nothing }
    {
        Logged {
            deliveries: 0,
            configurations: 0,
        }
    }

    /// Returns the sums of both counts.
    pub fn and(self, more: Logged) -> Logged
        ensures { result ≡ together self more }
    {
        Logged {
            deliveries: self.deliveries.saturating_add(more.deliveries),
            configurations: self.configurations.saturating_add(more.configurations),
        }
    }
}

/// What the network of a run did with packets. A packet counts once for each of its receivers.
#[derive(Clone, Copy, Debug, PartialEq, Eq)]
pub struct Traffic {
    /// How many packets were sent, the first token among them.
    pub sent: u64,
    /// How many were lost by their fate.
    pub lost: u64,
    /// How many were duplicated by their fate.
    pub repeated: u64,
    /// How many copies were forwarded to their receivers.
    pub forwarded: u64,
    /// How many copies were held back at the end.
    pub held: u64,
    /// How many copies waited at the end to be forwarded.
    pub waiting: u64,
    /// How many packets were sent in the last tick, too late to have a fate.
    pub late: u64,
    /// The last tick in which a node delivered a message, if one did.
    pub delivered_in: Option<u32>,
}

/// What came of a run.
#[derive(Clone, Copy, Debug, PartialEq, Eq)]
pub struct Tally {
    /// How many messages the nodes sent.
    pub sent: u64,
    /// How many messages every node delivered.
    pub delivered_by_all: u64,
    /// How many rings were formed: regular configurations that a node installed after its first.
    pub rings: u64,
}

/// Receives reports of the progress of a run, on the thread that runs the switch.
pub trait Progress {
    /// Called at each tick: how many of the ticks have passed, and what the nodes have logged so far.
    fn ticked(&mut self, passed: u32, ticks: u32, logged: Logged);

    /// Called once, when the switch has ended: what it did with packets.
    fn carried(&mut self, traffic: Traffic);

    /// Called once, when the run has ended and nothing of it has been written yet: what came of it, or `None` if there is no run, or too
    /// little memory to count.
    fn ended(&mut self, made: Option<Tally>);
}

/// A `Progress` that does nothing.
#[derive(Clone, Copy, Debug, PartialEq, Eq)]
pub struct Unwatched;

impl Progress for Unwatched {
    fn ticked(&mut self, _passed: u32, _ticks: u32, _logged: Logged) {}

    fn carried(&mut self, _traffic: Traffic) {}

    fn ended(&mut self, _made: Option<Tally>) {}
}
