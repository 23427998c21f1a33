//! Writers of numbers and names into a text that is filled from its end, since the digits of a number come from the last to the first.
//! Each writes a byte and then a name, so that the name ends before an index of the text, and returns the index of the byte.
ghost use Rattle.std.specs.Prelude.{◌≡◌, ◌+◌, ◌≤◌, ◌∷◌, ◌++◌, decimal, drop, length};
ghost use Rattle.totem_names.specs.Texts.{message_text};
ghost use Rattle.totem_names.specs.Processes.{process_text};

use crate::life::Proc;
use crate::message::MsgId;
use crate::version::Version;
use itoa::write_digits;

/// Writes a byte and a number.
pub fn write_number(text: &mut [u8], end: usize, before: u8, number: u32) -> usize
    requires { (11 ≤ end) × (end ≤ length text.old) }
    ensures within { (result ≤ end) × (end ≤ result + 11) }
    ensures length { length text.new ≡ length text.old }
    ensures written { drop result text.new ≡ before ∷ (decimal number ++ drop end text.old) }
{
    let start = write_digits(u64::from(number), text, end) - 1;
    text[start] = before;
    start
}

/// Writes a byte and a message, as in ` 4.1#7`.
pub fn write_message(text: &mut [u8], end: usize, before: u8, message: MsgId) -> usize
    requires { (33 ≤ end) × (end ≤ length text.old) }
    ensures within { (result ≤ end) × (end ≤ result + 33) }
    ensures length { length text.new ≡ length text.old }
    ensures written { drop result text.new ≡ before ∷ (message_text message ++ drop end text.old) }
{
    let ring = message.ring;
    let least = u32::from(ring.rep.number());
    let number = write_number(text, end, b'#', message.number);
    let rep = write_number(text, number, b'.', least);
    write_number(text, rep, before, ring.seq)
}

/// Writes a byte and a process, with its life where this version writes lives: as ` 2:1`, or as ` 2`.
pub fn write_process(
    text: &mut [u8],
    end: usize,
    before: u8,
    version: Version,
    process: Proc,
) -> usize
    requires { (22 ≤ end) × (end ≤ length text.old) }
    ensures within { (result ≤ end) × (end ≤ result + 22) }
    ensures length { length text.new ≡ length text.old }
    ensures written { drop result text.new ≡ before ∷ (process_text version process ++ drop end text.old) }
{
    let id = u32::from(process.id().number());
    if !version.lives() {
        return write_number(text, end, before, id);
    }
    let life = write_number(text, end, b':', u32::from(process.life()));
    write_number(text, life, before, id)
}
