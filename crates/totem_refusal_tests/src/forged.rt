//! Seeded changes of packets and of a run's text. Bytes that are not a packet are refused by name, and a packet has exactly the
//! bytes from which it was read; a text is refused part by part in the same way as it is as a whole.
use rand_core::SeedableRng;
use rand_core::utils::NextWord;
use rand_pcg::Pcg32;
use std::alloc::{AllocError, Global};
use std::test::Fail;
use totem_evs::{Next, RunFault, RunReader, read_run};
use totem_names::FromRead;
use totem_packets::{Packet, PacketFault};

/// The number of times that each packet and the text are changed.
const TIMES: u32 = 10_000;

/// A token, a client's message, one that carries an older message, a mark, a Join, and a commit token.
const PACKETS: [&[u8]; 6] = [
    &[
        2, 0, 0, 0, 4, 0, 1, 0, 0, 0, 0, 0, 0, 0, 4, 0, 0, 0, 2, 0, 0, 0, 0, 0, 3, 1, 0, 0, 0, 1,
    ],
    &[1, 0, 0, 0, 4, 0, 1, 0, 0, 0, 1, 0, 1, 0, 0, 1, 120],
    &[
        1, 0, 0, 0, 8, 0, 1, 0, 0, 0, 3, 0, 2, 2, 0, 0, 0, 4, 0, 1, 0, 0, 0, 5, 0, 1, 0, 2, 104,
        105,
    ],
    &[1, 0, 0, 0, 8, 0, 1, 0, 0, 0, 4, 0, 2, 4],
    &[3, 0, 1, 0, 0, 0, 8, 3, 0, 1, 0, 2, 0, 3, 1, 0, 3],
    &[
        4, 0, 0, 0, 8, 0, 1, 1, 2, 0, 1, 1, 0, 0, 0, 4, 0, 1, 0, 0, 0, 5, 0, 0, 0, 4, 2, 0, 1, 0,
        3, 0, 2, 0,
    ],
];

/// The text of a run in which a member leaves and another one fails.
const RUN: &[u8] =
    b"totem-run 1\nlog 1\nconf r4.1 1 2 3\nsend r4.1 s 4.1#1\ndlv r4.1 4.1#1\nconf t8.1/1 1 2\nconf r8.1 1 2\nopen\nlog 2\nconf r4.1 1 2 3\nconf t8.1/1 1 2\nconf r8.1 1 2\nfail r8.1\nfailed\nlog 3\nconf r4.1 1 2 3\nopen\nend\n";

/// Changes the bytes as a random word says, at a place that it gives: replaces, removes or repeats a byte, or cuts the bytes there.
fn change(bytes: &mut Vec<u8>, word: u32) -> Result<(), AllocError> {
    let at = (word / 1024) as usize % bytes.len().max(1);
    let Some(byte) = bytes.get(at).copied() else {
        return Ok(());
    };
    match word % 8 {
        0 => {
            bytes.remove(at);
        }
        1 => bytes.insert(at, byte)?,
        2 => bytes.truncate(at),
        _ => bytes[at] = (word / 4 % 256) as u8,
    }
    Ok(())
}

/// Returns the bytes after one to three changes.
fn changed(alloc: Global, words: &mut Pcg32, bytes: &[u8]) -> Result<Vec<u8>, AllocError> {
    let mut changed = bytes.to_vec(alloc)?;
    for _ in 0..words.next_word() % 3 + 1 {
        change(&mut changed, words.next_word())?;
    }
    Ok(changed)
}

/// The results for changed bytes.
#[derive(Clone, Copy)]
struct Counts {
    taken: u32,
    refused: u32,
    wrong: u32,
}

enum Answer {
    Taken,
    Refused,
    Wrong,
}

impl Counts {
    fn new() -> Counts {
        Counts {
            taken: 0,
            refused: 0,
            wrong: 0,
        }
    }

    fn note(&mut self, answer: Answer) {
        let count = match answer {
            Answer::Taken => &mut self.taken,
            Answer::Refused => &mut self.refused,
            Answer::Wrong => &mut self.wrong,
        };
        *count = count.saturating_add(1);
    }

    /// Returns whether some were taken, some were refused, and all as they should be.
    fn are_right(&self) -> bool {
        self.taken > 0 && self.refused > 0 && self.wrong == 0
    }
}

fn has_bytes(alloc: Global, packet: &Packet, bytes: &[u8]) -> Result<bool, AllocError> {
    let encoded = packet.encode(alloc)?;
    Ok(encoded.as_slice() == bytes)
}

fn judge_read(alloc: Global, packet: &Packet, bytes: &[u8]) -> Answer {
    match has_bytes(alloc, packet, bytes) {
        Ok(true) => Answer::Taken,
        _ => Answer::Wrong,
    }
}

/// Decodes the bytes. A packet that is read has to have these very bytes.
fn judge_packet(alloc: Global, bytes: &[u8]) -> Answer {
    match Packet::decode(alloc, bytes) {
        Ok(packet) => judge_read(alloc, &packet, bytes),
        Err(PacketFault::Memory) => Answer::Wrong,
        Err(_) => Answer::Refused,
    }
}

fn packet_counts(alloc: Global, packet: &[u8]) -> Result<Counts, AllocError> {
    let mut words = Pcg32::seed_from_u64(1);
    let mut counts = Counts::new();
    for _ in 0..TIMES {
        let bytes = changed(alloc, &mut words, packet)?;
        counts.note(judge_packet(alloc, &bytes));
    }
    Ok(counts)
}

/// Returns why the bytes are not a run's text, or `None` if they are one.
fn fault_of(alloc: Global, bytes: &[u8]) -> Option<RunFault> {
    let mut source = FromRead::new(bytes);
    read_run(alloc, &mut source).err()
}

/// Returns the same for the bytes read part by part. Each part has at least one byte.
fn fault_of_parts(alloc: Global, bytes: &[u8]) -> Option<RunFault> {
    let mut source = FromRead::new(bytes);
    let mut reader = match RunReader::begin(alloc, &mut source) {
        Ok(reader) => reader,
        Err(fault) => return Some(fault),
    };
    for _ in 0..=bytes.len() {
        match reader.next(alloc, &mut source) {
            Ok(Next::Part(_, later)) => reader = later,
            Ok(Next::End) => return None,
            Err(fault) => return Some(fault),
        }
    }
    Some(RunFault::Memory)
}

/// Reads the bytes as a whole and part by part. Both have to give the same result.
fn judge_text(alloc: Global, bytes: &[u8]) -> Answer {
    let whole = fault_of(alloc, bytes);
    if whole != fault_of_parts(alloc, bytes) || whole == Some(RunFault::Memory) {
        return Answer::Wrong;
    }
    match whole {
        Some(_) => Answer::Refused,
        None => Answer::Taken,
    }
}

fn text_counts(alloc: Global) -> Result<Counts, AllocError> {
    let mut words = Pcg32::seed_from_u64(2);
    let mut counts = Counts::new();
    for _ in 0..TIMES {
        let bytes = changed(alloc, &mut words, RUN)?;
        counts.note(judge_text(alloc, &bytes));
    }
    Ok(counts)
}

/// Changed packets are refused, or read as packets with exactly these bytes.
#[test]
fn changed_packets_are_refused_or_have_their_bytes(rt: HostRuntime) -> Result<(), Fail> {
    for packet in &PACKETS {
        let counts = packet_counts(rt.alloc(), packet)?;
        assert!(rt; counts.are_right(), "{packet:?}: {}", counts.wrong);
    }
    Ok(())
}

/// Changed texts of a run are refused part by part with the same fault as they are as a whole.
#[test]
fn changed_texts_are_refused_by_parts_as_they_are_whole(rt: HostRuntime) -> Result<(), Fail> {
    let counts = text_counts(rt.alloc())?;
    assert!(rt; counts.are_right(), "{} of {}", counts.wrong, TIMES);
    Ok(())
}
