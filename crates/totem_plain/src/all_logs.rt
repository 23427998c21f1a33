//! What the definitions ask of all logs (docs/SPECIFICATIONS.md, "Runs", "Failed and open").
ghost use Rattle.std.specs.Prelude.{◌≡◌, ◌↔◌, ℕ, [], IsTrue, IfSome, IfNone};
ghost use Rattle.totem_evs.specs.Events.{log_of, IsQuiet, IsSafe};
ghost use Rattle.totem_evs.specs.Following.{OpenIn, DeliversOrEnds};
ghost use Rattle.totem_evs.specs.Missing.{HasLog};
ghost use Rattle.totem_plain.specs.Plain.{IsLogOf, HasNoLog, SomeOf, SomeMember, MissesSafe, IsEntrySend, IsEntrySafe, IsEntryMember};

use crate::one_log::{failed_in, has_delivered, stays_in};
use totem_evs::{Ending, Entry, Log, Run};
use totem_names::{ConfId, MsgId, Proc, RingId, Service};
use totem_search::{EntryTest, is_or_follows, some_event};

/// Returns the log of a process, with its process and ending, or `None` if it has none.
fn log_at(run: &Run, proc: Proc) -> Option<&Log>
    ensures some { IfSome result (λ log. IsLogOf run.now.logs proc log.now) }
    ensures none { IfNone result (HasNoLog run.now.logs proc) }
{
    for log in run.logs.as_slice() {
        if log.proc.rank() == proc.rank() {
            return Some(log);
        }
    }
    None
}

/// Returns the log of a process, or no entries if it has none.
pub fn log_of(run: &Run, proc: Proc) -> &[Entry]
    ensures { result.now ≡ log_of run.now.logs proc }
{
    match log_at(run, proc) {
        Some(log) => log.entries.as_slice(),
        None => &[],
    }
}

pub fn has_log(run: &Run, proc: Proc) -> bool
    ensures { IsTrue result ↔ HasLog run.now.logs proc }
{
    match log_at(run, proc) {
        Some(_) => true,
        None => false,
    }
}

fn is_quiet_ending(ending: Ending) -> bool
    ensures { IsTrue result ↔ (ending ≡ Ending.Quiet) }
{
    matches!(ending, Ending::Quiet)
}

pub fn is_quiet(run: &Run, proc: Proc) -> bool
    ensures { IsTrue result ↔ IsQuiet run.now.logs proc }
{
    match log_at(run, proc) {
        Some(log) => is_quiet_ending(log.ending),
        None => false,
    }
}

/// The sends of a message, in any configuration.
#[derive(Clone, Copy)]
pub struct Sends<'m> {
    pub message: &'m MsgId,
}

impl EntryTest for Sends<'_> {
    ghost holds = { λ t. IsEntrySend t.message.now };

    fn test(&self, entry: &Entry) -> bool {
        match entry {
            Entry::Send(message, _, _) => *message == *self.message,
            _ => false,
        }
    }
}

/// The sends of a message as a safe one.
#[derive(Clone, Copy)]
struct SendsSafe<'m> {
    message: &'m MsgId,
}

impl EntryTest for SendsSafe<'_> {
    ghost holds = { λ t. IsEntrySafe t.message.now };

    fn test(&self, entry: &Entry) -> bool {
        match entry {
            Entry::Send(message, _, Service::Safe) => *message == *self.message,
            _ => false,
        }
    }
}

/// Returns whether the message was sent as a safe one.
#[tactic(auto, using(crate::proofs::Logs::sent_safe))]
fn is_safe(run: &Run, message: &MsgId) -> bool
    ensures { IsTrue result ↔ IsSafe run.now.logs message.now }
{
    some_event(&SendsSafe { message }, run)
}

/// A test for processes.
pub trait MemberTest {
    ghost holds: { Self → ℕ → Type 0 };

    fn test(&self, proc: Proc) -> bool
        ensures { IsTrue result ↔ holds self.now proc };
}

/// Returns whether one of these processes passes the test.
pub fn some_of<T: MemberTest>(test: &T, members: &[Proc]) -> bool
    ensures { IsTrue result ↔ SomeOf (T.holds test.now) members.now }
{
    members.iter().any(|member| test.test(*member))
}

/// The changes to a configuration that list a process that passes the test.
#[derive(Clone, Copy)]
struct Lists<'m, T> {
    conf: &'m ConfId,
    test: &'m T,
}

impl<T: MemberTest> EntryTest for Lists<'_, T> {
    ghost holds = { λ t. IsEntryMember t.conf.now (T.holds t.test.now) };

    fn test(&self, entry: &Entry) -> bool {
        match entry {
            Entry::Conf(conf, members) => {
                conf.is(self.conf) && some_of(self.test, members.as_slice())
            }
            _ => false,
        }
    }
}

/// Returns whether some member of the configuration passes the test.
#[tactic(auto, using(crate::proofs::Logs::some_member))]
pub fn some_member<T: MemberTest>(test: &T, run: &Run, conf: &ConfId) -> bool
    ensures { IsTrue result ↔ SomeMember (T.holds test.now) run.now.logs conf.now }
{
    some_event(&Lists { conf, test }, run)
}

/// Returns whether the message was sent as a safe one, and some member of the configuration passes the test.
pub fn misses_safe<T: MemberTest>(test: &T, run: &Run, message: &MsgId, conf: &ConfId) -> bool
    ensures { IsTrue result ↔ MissesSafe (T.holds test.now) run.now.logs message.now conf.now }
{
    is_safe(run, message) && some_member(test, run, conf)
}

/// Returns whether the process is open in the regular configuration or in what follows it.
pub fn is_open_in(run: &Run, proc: Proc, ring: &RingId) -> bool
    ensures { IsTrue result ↔ OpenIn run.now.logs proc ring.now }
{
    !is_quiet(run, proc) && stays_in(log_of(run, proc), ring)
}

/// Returns whether the process delivers the message there, failed there or is open there.
pub fn delivers_or_ends(run: &Run, proc: Proc, ring: &RingId, message: &MsgId) -> bool
    ensures { IsTrue result ↔ DeliversOrEnds run.now.logs proc ring.now message.now }
{
    let log = log_of(run, proc);
    has_delivered(log, ring, message) || failed_in(log, ring) || is_open_in(run, proc, ring)
}
