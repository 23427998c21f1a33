//! What a run reports on standard error.
use std::alloc::{AllocError, Global};
use std::time::{Clock, Duration};
use totem_cluster::{Logged, Progress, Tally, Traffic};
use totem_names::Sink;

/// The least time in milliseconds for which a line is shown.
const STANDS: u64 = 100;

/// Bytes at which a terminal goes to the beginning of the line and erases it.
const WIPE: &str = "\r\x1b[K";

/// Shows on a terminal the progress of a run in one line, which is updated at most ten times a second and erased at the end; and writes
/// in the end, on a terminal or not, a line that says what came of the run. Without memory for a line it is left out, and without a clock
/// no progress is shown.
#[derive(Drop)]
pub struct ProgressLine<'a, C, S> {
    clock: &'a C,
    alloc: Global,
    errors: S,
    is_terminal: bool,
    /// When the line was last written, or when the first tick was.
    since: Option<Duration>,
    is_shown: bool,
    traffic: Option<Traffic>,
}

fn line_of(alloc: Global, passed: u32, ticks: u32, logged: Logged) -> Result<String, AllocError> {
    let Logged {
        deliveries,
        configurations,
    } = logged;
    format!(in alloc;
        "{WIPE}{passed} of {ticks} ticks, {deliveries} deliveries, {configurations} installed configurations"
    )
}

/// Returns in which tick a message was delivered last.
fn last_delivery(alloc: Global, tick: Option<u32>) -> Result<String, AllocError> {
    match tick {
        Some(tick) => format!(in alloc; "last delivery in tick {tick}"),
        None => String::from_str(alloc, "no delivery"),
    }
}

/// Returns the line that says what came of a run.
fn summary_of(alloc: Global, made: Tally, traffic: Traffic) -> Result<String, AllocError> {
    let Tally {
        sent,
        delivered_by_all,
        rings,
    } = made;
    let Traffic {
        sent: packets,
        lost,
        repeated,
        held,
        waiting,
        late,
        delivered_in,
        ..
    } = traffic;
    let last = last_delivery(alloc, delivered_in)?;
    format!(in alloc;
        "totem: messages: {sent} sent, {delivered_by_all} delivered by every node, {last}; rings formed: {rings}; packets: {packets} sent, {lost} lost and {repeated} duplicated by the plan; on their way at the end: {held} held back, {waiting} waiting, {late} sent in the last tick\n"
    )
}

impl<'a, C: Clock, S: Sink> ProgressLine<'a, C, S> {
    /// Returns a progress line on standard error, which may be a terminal.
    pub fn new(
        clock: &'a C,
        alloc: Global,
        errors: S,
        is_terminal: bool,
    ) -> ProgressLine<'a, C, S> {
        ProgressLine {
            clock,
            alloc,
            errors,
            is_terminal,
            since: None,
            is_shown: false,
            traffic: None,
        }
    }

    /// Returns whether the line was shown long enough, and records the time if it was.
    fn is_due(&mut self) -> bool {
        let Ok(now) = self.clock.monotonic() else {
            return false;
        };
        let Some(since) = self.since else {
            self.since = Some(now);
            return false;
        };
        let is_due = now.saturating_sub(since) >= Duration::from_millis(STANDS);
        if is_due {
            self.since = Some(now);
        }
        is_due
    }

    fn put(&mut self, text: &str) {
        let _ = self.errors.put(text.as_bytes());
    }
}

impl<'a, C: Clock, S: Sink> Progress for ProgressLine<'a, C, S> {
    fn ticked(&mut self, passed: u32, ticks: u32, logged: Logged) {
        if !self.is_terminal || !self.is_due() {
            return;
        }
        if let Ok(line) = line_of(self.alloc, passed, ticks, logged) {
            self.put(line.as_str());
            self.is_shown = true;
        }
    }

    fn carried(&mut self, traffic: Traffic) {
        self.traffic = Some(traffic);
    }

    fn ended(&mut self, made: Option<Tally>) {
        if self.is_shown {
            self.put(WIPE);
            self.is_shown = false;
        }
        let (Some(made), Some(traffic)) = (made, self.traffic) else {
            return;
        };
        if let Ok(line) = summary_of(self.alloc, made, traffic) {
            self.put(line.as_str());
        }
    }
}
