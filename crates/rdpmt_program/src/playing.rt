//! The command `play`: a script is read and played.

ghost use Rattle.std.specs.Prelude.{◌≡◌, ℕ, List, replicate, IsErrOf};
ghost use Rattle.mt_world.specs.Play.{start, play};
ghost use Rattle.mt_outside.specs.Told.{added};
ghost use Rattle.rdpmt_program.specs.Command.{IsPlay};
ghost use Rattle.rdpmt_program.specs.Fate.{Plays, Gives, Runs};

use crate::cause::Cause;
use crate::fault::Fault;
use crate::reading::{read_text, refused};
use mt_outside::FileStore;
use mt_world::{Line, ScriptRefusal, StepRefusal, Text, World, plays_safely, read_script};
use std::alloc::Global;

/// Why the lines of a script are not played to their end.
#[derive(Clone, Copy)]
enum Stop {
    /// The line of this number is refused.
    RefusedAt { line: u64, cause: Cause },
    /// Memory ran out.
    NoMemory,
}

impl Stop {
    ghost use Rattle.std.specs.Prelude.{◌≡◌};
    ghost use Rattle.rdpmt_program.specs.Fate.{stop_of};

    /// The stop at the line of this number, of which the step is refused.
    fn at(line: u64, refusal: StepRefusal) -> Stop
        ensures { result ≡ stop_of refusal line }
    {
        match refusal {
            StepRefusal::UnknownChannel => Stop::RefusedAt {
                line,
                cause: Cause::UnknownChannel,
            },
            StepRefusal::Refused(refused) => Stop::RefusedAt {
                line,
                cause: Cause::Refused(refused),
            },
            StepRefusal::NoMemory => Stop::NoMemory,
        }
    }
}

/// Plays the script of this name, and gives the report.
pub(crate) fn play_script<F: FileStore>(
    alloc: Global,
    files: &mut F,
    name: &str,
) -> Result<Text, Fault>
    ensures cause { (words : List (List ℕ)) → IsPlay words name.now → Runs words (F.told files.old) (F.faults files.old) (F.faults files.new) result }
    ensures counts { ¬ IsErrOf result Fault.File → F.faults files.new ≡ F.faults files.old }
    ensures names { (k : ℕ) × (F.named files.new ≡ added (F.named files.old) (replicate k name.now)) }
    ensures same { F.told files.new ≡ F.told files.old }
{
    match read_text(alloc, files, name) {
        Ok(text) => play_text(alloc, text.bytes()),
        Err(fault) => Err(fault),
    }
}

/// Plays the script that a text is, and gives the report.
fn play_text(alloc: Global, text: &[u8]) -> Result<Text, Fault>
    ensures { Gives text.now result }
{
    plays_safely();
    let script = match read_script(alloc, text) {
        Ok(script) => script,
        Err(ScriptRefusal::BadCommand { line }) => return Err(refused(alloc, line, "BadCommand")),
        Err(ScriptRefusal::BadWords { line }) => return Err(refused(alloc, line, "BadWords")),
        Err(ScriptRefusal::TooManyLines { .. }) => return Err(Fault::Limit),
        Err(ScriptRefusal::NoMemory) => return Err(Fault::NoMemory),
    };
    let world = match play_lines(alloc, script.lines()) {
        Ok(world) => world,
        Err(Stop::RefusedAt { line, cause }) => return Err(refused(alloc, line, cause.name())),
        Err(Stop::NoMemory) => return Err(Fault::NoMemory),
    };
    match world.report() {
        Ok(report) => Ok(report),
        Err(_) => Err(Fault::NoMemory),
    }
}

/// Plays lines in two new ends.
fn play_lines(alloc: Global, lines: &[Line]) -> Result<World, Stop>
    ensures { Plays result (play start lines.now) }
{
    let Ok(mut world) = World::new(alloc) else {
        return Err(Stop::NoMemory);
    };
    for line in lines {
        match world.step(&line.event) {
            Ok(()) => {}
            Err(refusal) => return Err(Stop::at(line.number, refusal)),
        }
    }
    Ok(world)
}
