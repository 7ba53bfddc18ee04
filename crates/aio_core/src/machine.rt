//! The machine of a program.

ghost use Rattle.std.specs.Prelude.{◌≡◌, ◌<◌, ◌≤◌, ◌^◌, IfOk, IfErr, IfSome, OnOk, Some};
ghost use Rattle.std.specs.Prelude.{length, slice_get};
ghost use Rattle.aio_word.specs.Events.{machine_after, has_handed_out_from};
ghost use Rattle.aio_word.specs.Stands.{IsLawfulMachine};
ghost use Rattle.aio_word.specs.Words.{IsLawful, packed_word};
ghost use Rattle.aio_core.specs.Allowed.{permits, allowed_next_word, HasStep};
ghost use Rattle.aio_core.specs.Causes.{IsStepCause, IsRunCause};
ghost use Rattle.aio_core.specs.Claimers.{claimers_after_event};
ghost use Rattle.aio_core.specs.AfterEvents.{MachineView, opened_machine, machine_after_all};

use crate::marks::{Marks, empty_lists, note};
use crate::rows::{after, left_by};
use crate::{RunRefusal, StepRefusal};
use aio_word::{Class, Config, Event, State, Step, Word, pack};
use std::alloc::{AllocError, Global};
use std::marker::Model;

#[cfg(test)]
mod tests;

/// The machine. Contracts see its numbers, its words and its lists of marks.
#[derive(Drop)]
pub struct Machine {
    config: Config,
    words: Vec<Word>,
    lists: Vec<Marks>,
    /// Of each handle the actor that claimed it last, 0 before the first claim.
    last_claimers: Vec<u32>,
}

impl Model for Machine {
    ghost use Rattle.aio_core.specs.Claimers.{MachineInvariant};
    ghost use Rattle.aio_core.specs.AfterEvents.{MachineView};

    ghost Value = { MachineView };

    ghost view = { λ m. record {
      config = m.config;
      machine = record { words = m.words.items; lists = m.lists.items };
    } };

    ghost invariant = { λ m. MachineInvariant m.config record {
      words = m.words.items;
      lists = m.lists.items;
    }
        m.last_claimers.items };
}

impl Machine {
    /// A machine whose handles are all Idle at generation `start`. Actors are numbered from 0, the
    /// backends first; backend b owns the handles from `b * per_backend` on.
    pub fn open(
        alloc: Global,
        backends: u32,
        per_backend: u32,
        runners: u32,
        start: u64,
    ) -> Result<Machine, AllocError>
        requires backends { (0 < backends) × (backends ≤ 16) }
        requires per_backend { (0 < per_backend) × (per_backend ≤ 64) }
        requires runners { runners ≤ 32 }
        requires start { start < 2 ^ 58 }
        ensures opened { IfOk result (λ m. m ≡ opened_machine backends per_backend runners start) }
        ensures lawful_machine { IfOk result (λ m. IsLawfulMachine m.config m.machine) }
    {
        let config = Config {
            backends,
            per_backend,
            runners,
            start,
        };
        let first = Word {
            state: State::Idle,
            claimed: false,
            class: Class::Unended,
            generation: start,
        };
        let handles = (backends * per_backend) as usize;
        let words = vec![in alloc; first; handles]?;
        let lists = empty_lists(alloc, (backends + runners) as usize)?;
        let last_claimers = vec![in alloc; 0u32; handles]?;
        Ok(Machine {
            config,
            words,
            lists,
            last_claimers,
        })
    }

    /// The packed word of the handle.
    pub fn word(&self, handle: u32) -> u64
        requires { handle < length self.now.machine.words }
        ensures { IfSome (slice_get self.now.machine.words handle) (λ w. result ≡ packed_word w) }
    {
        pack(&self.words[handle as usize])
    }

    /// Makes the event, where it is allowed; else the machine stays as it is.
    pub fn step(&mut self, event: Event) -> Result<(), StepRefusal>
        ensures config { self.new.config ≡ self.old.config }
        ensures new_machine { OnOk result
            (machine_after self.old.config self.old.machine event ≡ Some self.new.machine) }
        ensures lawful_machine { IsLawfulMachine self.new.config self.new.machine }
        ensures refused { IfErr result (λ e. self.new ≡ self.old) }
        ensures cause { IfErr result (λ e. IsStepCause self.old.config self.old.machine event e) }
    {
        let handle = event.handle as usize;
        if handle >= self.words.len() {
            return Err(StepRefusal::NotAllowed { event, word: None });
        }
        let word = self.words[handle];
        let Some(next) = self.next_word(&word, event) else {
            return Err(StepRefusal::NotAllowed {
                event,
                word: Some(pack(&word)),
            });
        };
        let kind = left_by(word.class, event.step);
        if note(
            &mut self.lists,
            event.actor,
            event.handle,
            event.generation,
            kind,
        )
        .is_err()
        {
            return Err(StepRefusal::NoMemory);
        }
        self.words[handle] = next;
        note_claimer(&mut self.last_claimers, &event);
        Ok(())
    }

    /// Makes the events in order, up to the first one that is refused.
    pub fn run(&mut self, events: &[Event]) -> Result<(), RunRefusal>
        ensures config { self.new.config ≡ self.old.config }
        ensures new_machine { OnOk result
            (machine_after_all self.old.config self.old.machine events.now
            ≡ Some self.new.machine) }
        ensures lawful_machine { IsLawfulMachine self.new.config self.new.machine }
        ensures cause { IfErr result
            (IsRunCause self.old.config self.old.machine self.new.machine events.now) }
    {
        self.machine_is_lawful();
        for i in 0..events.len() {
            if let Err(refusal) = self.step(events[i]) {
                return Err(RunRefusal::At(i, refusal));
            }
        }
        Ok(())
    }

    /// The lists of a machine stand for its words.
    fn machine_is_lawful(&self)
        ensures { IsLawfulMachine self.now.config self.now.machine }
    {
        let config = self.config;
        let _ = config;
    }

    /// The word after the event, where the event is allowed and the handle has this word.
    fn next_word(&self, word: &Word, event: Event) -> Option<Word>
        requires word_at { slice_get self.now.machine.words event.handle ≡ Some word.now }
        requires lawful { IsLawful word.now }
        ensures { result ≡ allowed_next_word self.now.config self.now.machine event word.now }
    {
        if word.generation != event.generation {
            return None;
        }
        let next = after(word, event.step)?;
        if self.permits(event) {
            Some(next)
        } else {
            None
        }
    }

    /// Whether the event's actor is in range and may make it, where its word has the step.
    fn permits(&self, event: Event) -> bool
        requires { HasStep self.now.machine event }
        ensures { result ≡ permits self.now.config self.now.machine event }
    {
        if event.actor as usize >= self.lists.len() {
            return false;
        }
        let is_owner = event.actor == event.handle / self.config.per_backend;
        match event.step {
            Step::HandOut => is_owner && !self.has_handed_out(event.actor),
            Step::Claim => true,
            Step::Io(_) | Step::Shared => {
                event.actor == self.last_claimers[event.handle as usize]
            }
            _ => is_owner,
        }
    }

    /// Whether the backend has a handle that is handed out.
    fn has_handed_out(&self, backend: u32) -> bool
        requires { backend < self.now.config.backends }
        ensures { result ≡ has_handed_out_from self.now.config backend 0 self.now.machine.words }
    {
        let first = (backend * self.config.per_backend) as usize;
        let end = first + self.config.per_backend as usize;
        for handle in first..end {
            if matches!(self.words[handle].state, State::HandedOut) {
                return true;
            }
        }
        false
    }
}

/// Keeps the actor of a claim as the last claimer of its handle.
fn note_claimer(claimers: &mut [u32], event: &Event)
    requires { event.now.handle < length claimers.old }
    ensures { claimers.new ≡ claimers_after_event claimers.old event.now }
{
    if matches!(event.step, Step::Claim) {
        claimers[event.handle as usize] = event.actor;
    }
}
