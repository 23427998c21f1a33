//! Lines that are wholly at hand, read without a source.
ghost use Rattle.std.specs.Prelude.{IfSome, Bool, false};
ghost use Rattle.totem_names.specs.Sources.{Stands};
ghost use Rattle.totem_evs.specs.declared.lines.Line.TheVariants as lines;
ghost use Rattle.totem_evs.specs.RunGrammar.{change_at, send_at, delivery_at, line_at};

use crate::entry::Entry;
use crate::roll::Roll;
use totem_names::{Version, byte_in, conf_in, message_in, service_in, word_in};

#[inline(always)]
fn change_in(bytes: &[u8], at: usize, version: Version, roll: &Roll) -> Option<(Entry, usize)>
    ensures { IfSome result (λ e. Stands bytes.now at e.1 (change_at version false) (lines.Entry e.0)) }
{
    let at = word_in(bytes, at, b"onf ")?;
    let (conf, at) = conf_in(bytes, at, b' ')?;
    let (members, at) = roll.members_in(bytes, at, version)?;
    Some((Entry::Conf(conf, members), at))
}

#[inline(always)]
fn send_in(bytes: &[u8], at: usize) -> Option<(Entry, usize)>
    ensures { IfSome result (λ e. Stands bytes.now at e.1 (send_at false) (lines.Entry e.0)) }
{
    let at = word_in(bytes, at, b"end ")?;
    let (conf, at) = conf_in(bytes, at, b' ')?;
    let (service, at) = service_in(bytes, at)?;
    let at = word_in(bytes, at, b" ")?;
    let (message, at) = message_in(bytes, at, b'\n')?;
    Some((Entry::Send(message, conf, service), at))
}

#[inline(always)]
fn delivery_in(bytes: &[u8], at: usize) -> Option<(Entry, usize)>
    ensures { IfSome result (λ e. Stands bytes.now at e.1 (delivery_at false) (lines.Entry e.0)) }
{
    let at = word_in(bytes, at, b"lv ")?;
    let (conf, at) = conf_in(bytes, at, b' ')?;
    let (message, at) = message_in(bytes, at, b'\n')?;
    Some((Entry::Deliver(message, conf), at))
}

/// Returns the entry with whose line these bytes begin, and how many bytes the line takes. Returns `None` unless it is a send, a delivery, or
/// a change with the members of the roll, or if the bytes end before it does.
#[inline(always)]
pub fn entry_in(bytes: &[u8], version: Version, roll: &Option<Roll>) -> Option<(Entry, usize)>
    ensures { (some failed : Bool) → IfSome result (λ e. Stands bytes.now 0 e.1 (line_at version false some failed) (lines.Entry e.0)) }
{
    let (letter, at) = byte_in(bytes, 0)?;
    if letter == b'c' {
        return change_in(bytes, at, version, roll.as_ref()?);
    }
    if letter == b's' {
        return send_in(bytes, at);
    }
    if letter == b'd' {
        return delivery_in(bytes, at);
    }
    None
}
