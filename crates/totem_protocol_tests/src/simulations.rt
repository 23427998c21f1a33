//! A script's run, and how its fault is reported. What else scripts make and which are refused is tested with the built program, by
//! `tests/program`. Lines end at `;` here.
use std::alloc::Global;
use std::test::Fail;
use totem_evs::write_run;
use totem_names::ToWrite;
use totem_script::{follow, simulate};

// A message is lost, requested and sent again.
const SCRIPT: &str =
    "totem-script 1;ring 4.1 1 2 3;submit 1 a x;submit 2 a y;run 1;drop 2;run 8;end;";

const RUN: &str =
    "totem-run 1;log 1;conf r4.1 1 2 3;send r4.1 a 4.1#1;dlv r4.1 4.1#1;dlv r4.1 4.1#2;open;log 2;conf r4.1 1 2 3;dlv r4.1 4.1#1;send r4.1 a 4.1#2;dlv r4.1 4.1#2;open;log 3;conf r4.1 1 2 3;dlv r4.1 4.1#1;dlv r4.1 4.1#2;open;end;";

fn bytes_of(alloc: Global, text: &str) -> Result<Vec<u8>, Fail> {
    let mut bytes = Vec::new(alloc);
    for byte in text.bytes() {
        bytes.push(if byte == b';' { b'\n' } else { byte })?;
    }
    Ok(bytes)
}

fn text_of(alloc: Global, script: &str) -> Result<Vec<u8>, Fail> {
    let run = simulate(alloc, &bytes_of(alloc, script)?)?;
    let mut sink = ToWrite::new(Vec::new(alloc));
    write_run(alloc, &run, &mut sink)?;
    Ok(sink.into_inner())
}

/// Returns the text of a script's fault.
fn fault_of(alloc: Global, script: &str) -> Result<String, Fail> {
    match follow(alloc, &bytes_of(alloc, script)?) {
        Ok(_) => Ok(String::from_str(alloc, "none")?),
        Err(fault) => Ok(fault.to_string(alloc)?),
    }
}

/// A script in which a message is lost and sent again gives its run.
#[test]
fn a_script_makes_a_run(rt: HostRuntime) -> Result<(), Fail> {
    let text = text_of(rt.alloc(), SCRIPT)?;
    assert!(rt; text == bytes_of(rt.alloc(), RUN)?);
    Ok(())
}

/// The text of a script's fault says what is wrong, and in which line.
#[test]
fn a_fault_says_what_and_where(rt: HostRuntime) -> Result<(), Fail> {
    let fault = fault_of(rt.alloc(), "totem-script 2;ring 4.1 1;return 1;end;")?;
    assert_eq!(rt;
        (fault.as_str(), fault_of(rt.alloc(), SCRIPT)?.as_str()),
        (
            "line 3: there is no such packet, or the process can't return",
            "none"
        )
    );
    Ok(())
}
