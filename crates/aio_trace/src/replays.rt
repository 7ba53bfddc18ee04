//! The checker of one given run.
ghost use Rattle.std.specs.Prelude.{◌<◌, ◌≤◌, ◌^◌, ℕ};
ghost use Rattle.aio_core.specs.AfterEvents.{MachineView, opened_machine};
ghost use Rattle.aio_trace.specs.declared.replays.ReplayAnswer.TheVariants.{Lawful, FirstBad};
ghost use Rattle.aio_trace.specs.Replay.{IsReplay, IsFirstBad, IsAfterAll, AgreesUnlessNoMemory};

use aio_core::{Machine, RunRefusal, StepRefusal};
use aio_word::Event;
use std::alloc::Global;

/// What a replay says of a run.
#[derive(Drop)]
pub enum ReplayAnswer {
    /// The machine allows each event; this is the machine after them.
    Lawful(Machine),
    /// The place in the list of the first event that the machine does not allow, from 0.
    FirstBad(usize),
    /// There was no memory for the machine or a mark.
    NoMemory,
}

/// Makes the events of a run, in order, on a machine whose handles are all Idle at generation
/// `start`: of `backends` backends with `per_backend` handles each, and of `runners` runners.
#[tactic(auto, using(crate::proofs::OneAnswer::lawful_alone, crate::proofs::OneAnswer::bad_alone))]
pub fn replay(
    alloc: Global,
    backends: u32,
    per_backend: u32,
    runners: u32,
    start: u64,
    events: &[Event],
) -> ReplayAnswer
    requires backends { (0 < backends) × (backends ≤ 16) }
    requires per_backend { (0 < per_backend) × (per_backend ≤ 64) }
    requires runners { runners ≤ 32 }
    requires start { start < 2 ^ 58 }
    ensures answer { IsReplay (opened_machine backends per_backend runners start) events.now
        result }

    // Each answer comes exactly where it says so, but for want of memory.
    ensures lawful { (end : MachineView)
        → IsAfterAll (opened_machine backends per_backend runners start) events.now end
        → AgreesUnlessNoMemory result (Lawful end) }
    ensures first_bad { (i : ℕ)
        → IsFirstBad (opened_machine backends per_backend runners start) events.now i
        → AgreesUnlessNoMemory result (FirstBad i) }
{
    match Machine::open(alloc, backends, per_backend, runners, start) {
        Ok(machine) => replay_on(machine, events),
        Err(_) => ReplayAnswer::NoMemory,
    }
}

// Makes the events of a run on a machine.
fn replay_on(mut machine: Machine, events: &[Event]) -> ReplayAnswer
    ensures { IsReplay machine events.now result }
{
    match machine.run(events) {
        Ok(()) => ReplayAnswer::Lawful(machine),
        Err(RunRefusal::At(place, StepRefusal::NotAllowed { .. })) => ReplayAnswer::FirstBad(place),
        Err(RunRefusal::At(_, StepRefusal::NoMemory)) => ReplayAnswer::NoMemory,
    }
}
