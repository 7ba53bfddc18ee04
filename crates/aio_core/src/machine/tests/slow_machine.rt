//! The machine's definition as a program.

use aio_word::{Class, Event, Kind, Mark, State, Step, Word};
use std::alloc::Global;
use std::test::Fail;

/// The machine's definition as a program: it looks for the claimer in the lists.
#[derive(Drop)]
pub(crate) struct SlowMachine {
    per_backend: u32,
    pub(crate) words: Vec<Word>,
    pub(crate) lists: Vec<Vec<Mark>>,
}

impl SlowMachine {
    pub(crate) fn open(
        alloc: Global,
        backends: u32,
        per_backend: u32,
        runners: u32,
    ) -> Result<Self, Fail> {
        let mut words = Vec::new(alloc);
        for _ in 0..backends.saturating_mul(per_backend) {
            words.push(Word {
                state: State::Idle,
                claimed: false,
                class: Class::Unended,
                generation: 0,
            })?;
        }
        let mut lists = Vec::new(alloc);
        for _ in 0..backends.saturating_add(runners) {
            lists.push(Vec::new(alloc))?;
        }
        Ok(SlowMachine {
            per_backend,
            words,
            lists,
        })
    }

    fn owner(&self, handle: u32) -> u32 {
        handle.checked_div(self.per_backend).unwrap_or(0)
    }

    fn has_claimed(&self, event: Event) -> bool {
        let Some(marks) = self.lists.get(event.actor as usize) else {
            return false;
        };
        for mark in marks {
            if mark.handle == event.handle
                && mark.generation == event.generation
                && mark.kind == Kind::Claimed
            {
                return true;
            }
        }
        false
    }

    fn has_handed_out(&self, actor: u32) -> bool {
        let mut handle = 0u32;
        for word in &self.words {
            if self.owner(handle) == actor && word.state == State::HandedOut {
                return true;
            }
            handle = handle.wrapping_add(1);
        }
        false
    }

    /// The state and the mark after the event, where it is allowed.
    fn row(&self, word: Word, event: Event) -> Option<(State, Option<Kind>)> {
        let owns = self.owner(event.handle) == event.actor;
        let last = word.generation == 288230376151711743;
        match (event.step, word.state) {
            (Step::HandOut, State::Idle) if owns && !last && !self.has_handed_out(event.actor) => {
                Some((State::HandedOut, None))
            }
            (Step::Release, State::HandedOut) if owns => Some((State::Idle, None)),
            (Step::Define, State::HandedOut) if owns => {
                Some((State::Defined, Some(Kind::Defined)))
            }
            (Step::Stage, State::Defined) if owns => Some((State::Staged, Some(Kind::Staged))),
            (Step::Submit, State::Staged) if owns => {
                Some((State::Submitted, Some(Kind::Submitted)))
            }
            (Step::Claim, State::Submitted) if !word.claimed => {
                Some((State::Submitted, Some(Kind::Claimed)))
            }
            (Step::Io(class), State::Submitted)
                if class != Class::Unended && self.has_claimed(event) => {
                Some((State::CompletedIo, Some(Kind::Io(class))))
            }
            (Step::Shared, State::CompletedIo) if self.has_claimed(event) => {
                Some((State::CompletedShared, Some(Kind::Shared)))
            }
            (Step::Local, State::CompletedShared) if owns => {
                Some((State::CompletedLocal, Some(Kind::Local(word.class))))
            }
            (Step::Reclaim, State::CompletedLocal) if owns => {
                Some((State::Idle, Some(Kind::Reclaimed)))
            }
            _ => None,
        }
    }

    /// Makes the event and answers true, or leaves all as it is.
    pub(crate) fn step(&mut self, event: Event) -> Result<bool, Fail> {
        let Some(&word) = self.words.get(event.handle as usize) else {
            return Ok(false);
        };
        if (event.actor as usize) >= self.lists.len() || word.generation != event.generation {
            return Ok(false);
        }
        let Some((state, kind)) = self.row(word, event) else {
            return Ok(false);
        };
        let claimed = match kind {
            Some(Kind::Claimed) | Some(Kind::Io(_)) => true,
            _ => false,
        };
        let class = match kind {
            Some(Kind::Io(class)) => class,
            Some(Kind::Reclaimed) => Class::Unended,
            _ => word.class,
        };
        let reclaimed = (kind == Some(Kind::Reclaimed)) as u64;
        if let Some(place) = self.words.get_mut(event.handle as usize) {
            *place = Word {
                state,
                claimed,
                class,
                generation: word.generation.wrapping_add(reclaimed),
            };
        }
        if let (Some(kind), Some(marks)) = (kind, self.lists.get_mut(event.actor as usize)) {
            marks.push(Mark {
                handle: event.handle,
                generation: event.generation,
                kind,
            })?;
        }
        Ok(true)
    }
}
