//! What is counted of a node's log, for progress reports.
ghost use Rattle.std.specs.Prelude.{◌≡◌};
ghost use Rattle.totem_books.specs.Replies.{answer_of, entries_of};
ghost use Rattle.totem_threads.specs.Logging.{is_delivery, is_installation, logged_of};

use totem_books::Reply;
use totem_evs::Entry;
use totem_names::ConfId;
use totem_net::Logged;

fn is_delivery(entry: &Entry) -> bool
    ensures { result ≡ is_delivery entry.now }
{
    matches!(entry, Entry::Deliver(..))
}

fn is_installation(entry: &Entry) -> bool
    ensures { result ≡ is_installation entry.now }
{
    matches!(entry, Entry::Conf(ConfId::Regular(_), _))
}

/// Returns the number of messages and of regular configurations in the entries that a node has logged at a call.
pub fn logged_at(reply: &Reply) -> Logged
    ensures { result ≡ logged_of (entries_of (answer_of reply.now)) }
{
    match reply {
        Reply::Done(out) => Logged {
            deliveries: out
                .entries
                .iter()
                .filter(|entry| is_delivery(entry))
                .count() as u64,
            configurations: out
                .entries
                .iter()
                .filter(|entry| is_installation(entry))
                .count() as u64,
        },
        Reply::Refused(_) => Logged::nothing(),
    }
}
