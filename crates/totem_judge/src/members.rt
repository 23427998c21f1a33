//! The members of configurations, as logs.
ghost use Rattle.std.specs.Prelude.{◌↔◌, ◌≤◌, IsTrue, length};
ghost use Rattle.std.specs.Bool.{OnTrue};
ghost use Rattle.totem_judge.specs.Members.{HasLog, AllHaveLogs, AreLogsOfMembers, AreMemberLogs};

use totem_evs::{Log, Members};
use totem_judge_traffic::{LogSet, MemberLogs};
use totem_names::Proc;

fn has_log(logs: &[Log], proc: Proc) -> bool
    ensures { OnTrue result (HasLog logs.now proc) }
{
    for log in logs {
        if log.proc == proc {
            return true;
        }
    }
    false
}

fn all_have_logs(logs: &[Log], members: &[Proc]) -> bool
    ensures { OnTrue result (AllHaveLogs logs.now members.now (length members.now)) }
{
    for member in members {
        if !has_log(logs, *member) {
            return false;
        }
    }
    true
}

fn logs_of(logs: &[Log], members: &Members) -> LogSet
    requires { length logs.now ≤ 32 }
    ensures { AreLogsOfMembers logs.now members.now (length logs.now) result }
{
    let mut set = LogSet::none();
    for index in 0..logs.len() {
        let log = &logs[index];
        if members.contains(log.proc) {
            set = set.with(index as u32);
        }
    }
    set
}

/// Returns the logs of these members, and whether each of them has one.
pub fn member_logs(logs: &[Log], members: &Members) -> MemberLogs
    requires { length logs.now ≤ 32 }
    ensures { AreMemberLogs logs.now members.now result }
{
    MemberLogs {
        logs: logs_of(logs, members),
        all: all_have_logs(logs, members.as_slice()),
    }
}
