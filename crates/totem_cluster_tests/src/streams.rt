//! Calls from stream to stream, and their faults. `tests/hostile` lets each stream of the program fail.
use crate::texts::{lines, words};
use std::alloc::Global;
use std::test::Fail;
use totem_cluster::{
    IoFault, Outcome, Unmade, Workers, audit_io, check_io, follow_io, program, sim_io,
};
use totem_evs::RunFault;
use totem_names::{FromRead, Fused, ToWrite};
use totem_script::ScriptFault;
use totem_verdicts::VerdictFault;

const GOOD: &str =
    "totem-run 1;log 1;conf r4.1 1 2;send r4.1 a 4.1#1;dlv r4.1 4.1#1;open;log 2;conf r4.1 1 2;dlv r4.1 4.1#1;open;end;";

const SCRIPT: &str = "totem-script 1;ring 4.1 1;end;";

/// A fault in an earlier line takes precedence over a failure of the source.
#[test]
fn an_earlier_line_comes_before_a_failed_read(rt: HostRuntime) -> Result<(), Fail> {
    let alloc = rt.alloc();
    let mut input = Fused::new(FromRead::new(b"totem-script 1\nrings".as_slice()), 20);
    let mut output = ToWrite::new(Vec::new(alloc));
    let unmade = follow_io(alloc, &mut input, &mut output);
    assert!(rt;
        matches!(
            unmade,
            Err(Unmade {
                fault: IoFault::Script(ScriptFault::Read),
                line: 2,
                ..
            })
        )
    );
    let mut input = Fused::new(FromRead::new(b"totem-script 1\nrings\n".as_slice()), 21);
    let unmade = follow_io(alloc, &mut input, &mut output);
    assert!(rt;
        matches!(
            unmade,
            Err(Unmade {
                fault: IoFault::Script(ScriptFault::Word),
                line: 2,
                ..
            })
        )
    );
    Ok(())
}

/// A run in threads whose output fails ends with status 4, and the program says why.
#[test]
fn a_run_that_cannot_be_written_is_told(rt: HostRuntime) -> Result<(), Fail> {
    let alloc = rt.alloc();
    let words = words(alloc, "run --ticks 8")?;
    let mut input = FromRead::new(b"".as_slice());
    let mut output = Fused::new(ToWrite::new(Vec::new(alloc)), 0);
    let mut errors = ToWrite::new(Vec::new(alloc));
    let status = program(
        &rt,
        alloc,
        words.as_slice(),
        &mut input,
        &mut output,
        &mut errors,
    );
    assert_eq!(rt; status, 4);
    assert_eq!(rt;
        errors.into_inner().as_slice(),
        b"totem: write failed\n".as_slice()
    );
    Ok(())
}

/// An audit and a check read from a stream and write to a stream.
#[test]
fn an_audit_and_a_check_from_stream_to_stream(rt: HostRuntime) -> Result<(), Fail> {
    let alloc = rt.alloc();
    let text = lines(alloc, GOOD)?;
    let mut output = ToWrite::new(Vec::new(alloc));
    let mut input = FromRead::new(text.as_bytes());
    let outcome = audit_io(&rt, alloc, &mut input, &mut output, Workers::one())?;
    assert_eq!(rt; outcome, Outcome::Yes);
    let mut input = FromRead::new(b"totem-run 1\nlog".as_slice());
    let fault = audit_io(&rt, alloc, &mut input, &mut output, Workers::one());
    assert!(rt; matches!(fault, Err(IoFault::Run(RunFault::Truncated))));
    let mut input = FromRead::new(b"totem-run 1\nend\ntotem-cert 1\nend\n".as_slice());
    let outcome = check_io(alloc, &mut input, &mut output)?;
    assert_eq!(rt; outcome, Outcome::Yes);
    Ok(())
}

// Adds the number and the name of the fault of this script.
fn push_script_fault(alloc: Global, text: &mut String, script: &[u8]) -> Result<(), Fail> {
    let mut output = ToWrite::new(Vec::new(alloc));
    if let Err(fault) = sim_io(alloc, &mut FromRead::new(script), &mut output) {
        write!(text, "{} {}; ", fault.number(), fault.name())?;
    }
    Ok(())
}

/// The faults of calls from stream to stream have their numbers and names, and so have their copies.
#[test]
fn faults_have_numbers_and_names(rt: HostRuntime) -> Result<(), Fail> {
    let alloc = rt.alloc();
    let mut text = String::new(alloc);
    push_script_fault(alloc, &mut text, b"totem-script 1\nend\n")?;
    push_script_fault(alloc, &mut text, SCRIPT.as_bytes())?;
    for fault in &[
        IoFault::Run(RunFault::Truncated),
        IoFault::Memory,
        IoFault::Write,
    ] {
        let copy = fault.try_clone(alloc)?;
        write!(text, "{} {}; ", copy.number(), copy.name())?;
    }
    assert_eq!(rt;
        text.as_str(),
        "4 Script; 4 Script; 1 Run; 6 Memory; 7 Write; "
    );
    Ok(())
}

/// The faults of a verdict have the numbers and names that they have among all faults, and so have their copies.
#[test]
fn faults_of_verdicts_have_numbers_and_names(rt: HostRuntime) -> Result<(), Fail> {
    let alloc = rt.alloc();
    let mut text = String::new(alloc);
    for fault in &[
        VerdictFault::Run(RunFault::Truncated),
        VerdictFault::Memory,
        VerdictFault::Write,
    ] {
        let copy = fault.try_clone(alloc)?;
        write!(text, "{} {}; ", copy.number(), copy.name())?;
    }
    assert_eq!(rt; text.as_str(), "1 Run; 6 Memory; 7 Write; ");
    Ok(())
}
