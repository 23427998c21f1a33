//! The fate given by a random word.
ghost use Rattle.std.specs.Prelude.{◌≡◌};
ghost use Rattle.totem_net.specs.Fates.{fate_of};

use crate::copies::Fate;
use crate::plan::Plan;

fn copies(word: u32, plan: Plan) -> u8
    ensures { result ≡ (fate_of word plan).copies }
{
    let drawn = word % 100;
    let lost = u32::from(plan.lose);
    if drawn < lost {
        return 0;
    }
    if drawn < lost + u32::from(plan.repeat) {
        return 2;
    }
    1
}

/// Returns the fate given by a random word under a plan (docs/PROTOCOL.md, "The network").
pub fn fate(word: u32, plan: Plan) -> Fate
    ensures { result ≡ fate_of word plan }
{
    let holds = u32::from(plan.hold) + 1;
    Fate {
        copies: copies(word, plan),
        first: ((word / 100) % holds) as u8,
        second: ((word / 10000) % holds) as u8,
    }
}
