//! The word of a handle as a number: state in bits 0 to 2, claim in bit 3, class in bits 4 and 5,
//! generation from bit 6 on.

ghost use Rattle.std.specs.Prelude.{◌≡◌, ◌<◌, ◌^◌, IfOk, IfErr, IsTrue, ◌↔◌};
ghost use Rattle.aio_word.specs.declared.Word.{Word};
ghost use Rattle.aio_word.specs.Words.{IsLawful, ClaimFits, ClassFits, packed_word, word_place};
ghost use Rattle.aio_word.specs.Words.{IsDone};
ghost use Rattle.aio_word.specs.Words.{IsNoPackedWord, number_of_state, number_of_class};

use crate::{BadWord, Class, State, WaitRef, Word};

fn state_number(state: State) -> u64
    ensures { result ≡ number_of_state state }
{
    match state {
        State::Idle => 0,
        State::HandedOut => 1,
        State::Defined => 2,
        State::Staged => 3,
        State::Submitted => 4,
        State::CompletedIo => 5,
        State::CompletedShared => 6,
        State::CompletedLocal => 7,
    }
}

fn class_number(class: Class) -> u64
    ensures { result ≡ number_of_class class }
{
    match class {
        Class::Unended => 0,
        Class::Whole => 1,
        Class::Short => 2,
        Class::Failed => 3,
    }
}

/// The word as a number: state + 8 * claimed + 16 * class + 64 * generation.
pub fn pack(word: &Word) -> u64
    requires { IsLawful word.now }
    ensures { result ≡ packed_word word.now }
{
    state_number(word.state)
        + 8 * word.claimed as u64
        + 16 * class_number(word.class)
        + 64 * word.generation
}

/// How many marks of a life the word's generation has, from 0 in Idle to 7 in CompletedLocal.
pub fn place(word: &Word) -> u8
    requires { IsLawful word.now }
    ensures { result ≡ word_place word.now }
{
    match word.state {
        State::Idle | State::HandedOut => 0,
        State::Defined => 1,
        State::Staged => 2,
        State::Submitted => { if word.claimed { 4 } else { 3 } }
        State::CompletedIo => 5,
        State::CompletedShared => 6,
        State::CompletedLocal => 7,
    }
}

/// Whether the incarnation is completed shared, by a word of its handle. It stays so: the word's
/// generation passes the reference's only after that (`pgaio_io_was_recycled` and the states from
/// CompletedShared on, in `aio.c`). The reference's handle is not read.
pub fn done(word: &Word, reference: WaitRef) -> bool
    ensures { IsTrue result ↔ IsDone word.now reference.generation }
{
    word.generation > reference.generation
        || word.generation == reference.generation
            && matches!(word.state, State::CompletedShared | State::CompletedLocal)
}

fn state_at(number: u64) -> State
    requires { number < 8 }
    ensures { number_of_state result ≡ number }
{
    match number {
        0 => State::Idle,
        1 => State::HandedOut,
        2 => State::Defined,
        3 => State::Staged,
        4 => State::Submitted,
        5 => State::CompletedIo,
        6 => State::CompletedShared,
        _ => State::CompletedLocal,
    }
}

fn class_at(number: u64) -> Class
    requires { number < 4 }
    ensures { number_of_class result ≡ number }
{
    match number {
        0 => Class::Unended,
        1 => Class::Whole,
        2 => Class::Short,
        _ => Class::Failed,
    }
}

fn claim_fits(state: State, claimed: bool) -> bool
    ensures { IsTrue result ↔ ClaimFits state claimed }
{
    match state {
        State::Submitted => true,
        State::CompletedIo => claimed,
        _ => !claimed,
    }
}

fn class_fits(state: State, class: Class) -> bool
    ensures { IsTrue result ↔ ClassFits state class }
{
    let has_class = !matches!(class, Class::Unended);
    match state {
        State::CompletedIo | State::CompletedShared | State::CompletedLocal => has_class,
        _ => !has_class,
    }
}

fn parts_of(number: u64) -> Word
    ensures { (packed_word result ≡ number) × (result.generation < 2 ^ 58) }
{
    Word {
        state: state_at(number % 8),
        claimed: number / 8 % 2 == 1,
        class: class_at(number / 16 % 4),
        generation: number / 64,
    }
}

/// The lawful word that packs to the number. It is the only one: [`pack`] gives no two words one
/// number.
pub fn unpack(number: u64) -> Result<Word, BadWord>
    ensures ok { IfOk result (λ w. IsLawful w × (packed_word w ≡ number)) }
    ensures only { IfOk result (λ w. (v : Word) → IsLawful v → packed_word v ≡ number → v ≡ w) }
    ensures err { IfErr result (λ e. (e.0 ≡ number) × IsNoPackedWord number) }
{
    let word = parts_of(number);
    if claim_fits(word.state, word.claimed) && class_fits(word.state, word.class) {
        Ok(word)
    } else {
        Err(BadWord(number))
    }
}
