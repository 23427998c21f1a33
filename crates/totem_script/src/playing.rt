//! Plays a script line by line.
ghost use Rattle.std.specs.Prelude.{◌≡◌, ◌≤◌, length, drop, OnOk};
ghost use Rattle.totem_script.specs.Judged as judged;
ghost use Rattle.totem_script.specs.Simulation.{first_line_played, first_headed, play, simulate, IsLinePlayed, Leads, Gives, without_line};

use crate::lines::Lines;
use crate::reading::read_command;
use crate::scene::SceneState;
use crate::script_fault::{FaultyLine, ScriptFault};
use crate::script_version::ScriptVersion;
use std::alloc::Global;
use totem_evs::Run;

/// Reads the next line and carries out its command. Returns whether the command was `end`.
fn play_line(
    alloc: Global,
    lines: &mut Lines<'_>,
    scene: &mut SceneState,
) -> Result<bool, ScriptFault>
    ensures played { IsLinePlayed result scene.new (first_line_played scene.old lines.old) }
    ensures rest { OnOk result (lines.new ≡ drop 1 lines.old) }
{
    let Some(text) = lines.next()? else {
        return Err(ScriptFault::Truncated);
    };
    let command = read_command(alloc, scene.version(), text)?;
    let ended = command.is_end();
    scene.carry_out(alloc, command)?;
    Ok(ended)
}

/// Plays the lines from the second on, up to `end`. Returns the number of that last line.
fn play(alloc: Global, lines: &mut Lines<'_>, scene: &mut SceneState) -> Result<u32, FaultyLine>
    requires { length lines.old ≤ 65537 }
    ensures { Leads result scene.new (play 2 scene.old lines.old) }
{
    let mut line = 2u32;
    'lines: loop {
        let ended = match play_line(alloc, lines, scene) {
            Ok(ended) => ended,
            Err(kind) => return Err(FaultyLine { kind, line }),
        };
        if ended {
            break 'lines;
        }
        line += 1;
    }
    if !lines.is_empty() {
        return Err(FaultyLine {
            kind: ScriptFault::End,
            line: line + 1,
        });
    }
    Ok(line)
}

/// Reads the first line, which names the script's version.
fn begin(lines: &mut Lines<'_>) -> Result<ScriptVersion, ScriptFault>
    ensures head { judged.Gives result (first_headed lines.old) }
    ensures rest { OnOk result (lines.new ≡ drop 1 lines.old) }
{
    let Some(text) = lines.next()? else {
        return Err(ScriptFault::Truncated);
    };
    match ScriptVersion::of(text) {
        Some(version) => Ok(version),
        None => Err(ScriptFault::Header),
    }
}

/// Returns the run that a script makes, as `simulate` does, or the first line that has a fault.
pub fn follow(alloc: Global, script: &[u8]) -> Result<Run, FaultyLine>
    ensures { Gives result (simulate script.now) }
{
    let mut lines = Lines::new(script);
    let version = match begin(&mut lines) {
        Ok(version) => version,
        Err(kind) => return Err(FaultyLine { kind, line: 1 }),
    };
    let mut scene = SceneState::new(alloc, version);
    let line = play(alloc, &mut lines, &mut scene)?;
    match scene.into_run(alloc) {
        Ok(run) => Ok(run),
        Err(_) => Err(FaultyLine {
            kind: ScriptFault::Memory,
            line,
        }),
    }
}

/// Returns the run that a script makes (docs/PROTOCOL.md, "Scripts"), with a log for each life of each of its processes. A
/// fault is that of the first line that has one; `follow` says which line that is.
///
/// The run has the version of the script. A run of version 1 names no life but the first, since nobody returns there.
pub fn simulate(alloc: Global, script: &[u8]) -> Result<Run, ScriptFault>
    ensures { judged.Gives result (without_line (simulate script.now)) }
{
    match follow(alloc, script) {
        Ok(run) => Ok(run),
        Err(faulty) => Err(faulty.kind),
    }
}
