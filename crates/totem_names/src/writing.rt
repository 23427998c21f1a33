//! Writers of numbers and names. Each puts the one spelling of what it is given into the gathered text.
ghost use Rattle.std.specs.Prelude.{decimal};
ghost use Rattle.totem_names.specs.Writing.{Writes, held};
ghost use Rattle.totem_names.specs.Texts.{ring_text, conf_text, message_text};

use crate::conf::ConfId;
use crate::message::MsgId;
use crate::pieces::Pieces;
use crate::ring::RingId;
use crate::sink::Sink;
use crate::source::Failed;

impl Pieces {
    /// Writes a number in decimal.
    pub fn put_number<S: Sink>(&mut self, sink: &mut S, number: u32) -> Result<(), Failed>
        ensures { Writes (held S.contents S.failures self.old sink.old)
            (held S.contents S.failures self.new sink.new) result (decimal number) }
    {
        let mut digits = itoa::Buffer::new();
        self.put(sink, digits.format(number).as_bytes())
    }

    /// Writes a ring, as in `4.1`.
    #[tactic(auto, using(crate::proofs::Writers::wrote_then, crate::proofs::Writers::wrote_failed))]
    pub fn put_ring<S: Sink>(&mut self, sink: &mut S, ring: RingId) -> Result<(), Failed>
        ensures { Writes (held S.contents S.failures self.old sink.old)
            (held S.contents S.failures self.new sink.new) result (ring_text ring) }
    {
        self.put_number(sink, ring.seq)?;
        self.put(sink, b".")?;
        self.put_number(sink, u32::from(ring.rep.number()))
    }

    /// Writes a configuration, as in `r4.1` or `t8.1/1`.
    #[tactic(auto, using(crate::proofs::Writers::wrote_then, crate::proofs::Writers::wrote_failed))]
    pub fn put_conf<S: Sink>(&mut self, sink: &mut S, conf: &ConfId) -> Result<(), Failed>
        ensures { Writes (held S.contents S.failures self.old sink.old)
            (held S.contents S.failures self.new sink.new) result (conf_text conf.now) }
    {
        match conf {
            ConfId::Regular(ring) => {
                self.put(sink, b"r")?;
                self.put_ring(sink, *ring)
            }
            ConfId::Transitional { next, least } => {
                self.put(sink, b"t")?;
                self.put_ring(sink, *next)?;
                self.put(sink, b"/")?;
                self.put_number(sink, u32::from(least.number()))
            }
        }
    }

    /// Writes a message, as in `4.1#7`.
    #[tactic(auto, using(crate::proofs::Writers::wrote_then, crate::proofs::Writers::wrote_failed))]
    pub fn put_message<S: Sink>(&mut self, sink: &mut S, message: MsgId) -> Result<(), Failed>
        ensures { Writes (held S.contents S.failures self.old sink.old)
            (held S.contents S.failures self.new sink.new) result (message_text message) }
    {
        self.put_ring(sink, message.ring)?;
        self.put(sink, b"#")?;
        self.put_number(sink, message.number)
    }
}
