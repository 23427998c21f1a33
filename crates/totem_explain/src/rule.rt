//! The specifications in one sentence each (docs/SPECIFICATIONS.md, "The seven specifications").
use totem_evs::SpecNo;

/// Returns what a specification requires, in one sentence.
pub fn rule_of(spec: SpecNo) -> &'static str {
    match spec {
        SpecNo::Cycle => "No event comes before itself.",
        SpecNo::Unsent => {
            "A message is delivered only in the regular configuration in which it was sent, or in the transitional one right after it."
        }
        SpecNo::Twice => {
            "A message is sent once, in a regular configuration, and each process delivers it at most once."
        }
        SpecNo::End => {
            "If a quiet log ends in a configuration, each member ends there without a failure, or is not quiet and may still come there."
        }
        SpecNo::Misplaced => {
            "A log begins with a change, its entries name the configuration that they are in, and nothing follows a failure."
        }
        SpecNo::Configuration => {
            "A configuration has the same members in each log, and a process changes to it at most once and is one of them."
        }
        SpecNo::Turns => {
            "Regular and transitional configurations alternate, and a transitional one fits those before and after it."
        }
        SpecNo::OwnDelivery => {
            "A process that sends a message delivers it, unless it fails or is still in that configuration."
        }
        SpecNo::Atomicity => {
            "Processes that go together from one configuration to the next deliver the same messages in the first."
        }
        SpecNo::Causality => {
            "A process that delivers a message has first delivered each message whose send may have caused it."
        }
        SpecNo::Order => "All deliveries fit into one order.",
        SpecNo::Gap => {
            "A process that delivers a message lacks none that another delivered before it, unless the sender is no longer a member."
        }
        SpecNo::Safety => {
            "A safe message that one member delivers is delivered by all members, unless they fail or are still there."
        }
        SpecNo::Installed => {
            "If a safe message is delivered in a regular configuration, all members of that configuration changed to it."
        }
    }
}
