//! Laws of returns and versions, each the contract of a function that does nothing.
ghost use Rattle.std.specs.Prelude.{◌≡◌, ◌↔◌, ℕ, List, Contains, Ok, Err, false};
ghost use Rattle.totem_script.specs.Actors.{Actor};
ghost use Rattle.totem_script.specs.Casts.{Returned, IsCast, is_known, with_return};
ghost use Rattle.totem_script.specs.Laws.{IsNextLife, ReturnsIfCrashed};
ghost use Rattle.totem_script.specs.Lines.{lines_of};
ghost use Rattle.totem_script.specs.Simulation.{first_headed, simulate};
ghost use Rattle.totem_script.specs.Versions.{FitVersion, version_of};
ghost use Rattle.totem_script.specs.declared.script_fault.ScriptFault.TheVariants.{Members};
ghost use Rattle.totem_script.specs.declared.script_version.ScriptVersion.{ScriptVersion};
ghost use Rattle.totem_evs.specs.RunRecord.{RunRecord};

/// A process of a script returns exactly if it has crashed, numbers are left for its next life and for that life's ring,
/// and there have been fewer than 32 lives. The fault is `Place` exactly if it has not crashed or no number is left, and
/// `TooMany` exactly if only the lives forbid it. It is `Members` exactly if the script does not have the process.
pub fn only_the_crashed_return()
    ensures known { (actors : List Actor) (a : Actor) → IsCast actors → Contains actors a → ReturnsIfCrashed actors a }
    ensures others { (actors : List Actor) (p : ℕ) → (with_return actors p ≡ Err Members) ↔ (is_known actors p ≡ false) }
{}

/// With a return a process that had crashed begins the life after its last one, as a new node alone on a ring. The process
/// is the representative of that ring, whose number is 4 above the greatest that the old node made, filled or installed.
/// The logs of its earlier lives are kept, and nothing changes for other processes.
pub fn a_return_begins_the_next_life()
    ensures { (actors : List Actor) (p : ℕ) (done : Returned) → with_return actors p ≡ Ok done → IsNextLife actors p done }
{}

/// The run that a script makes has the version of the script, and that of a script of version 1 names no life but the first.
pub fn a_run_has_its_scripts_version()
    ensures { (script : List ℕ) (version : ScriptVersion) (run : RunRecord) → first_headed (lines_of 65536 script) ≡ Ok version
        → simulate script ≡ Ok run → (run.version ≡ version_of version) × FitVersion version run.logs }
{}
