//! What is told on the error stream.
ghost use Rattle.std.specs.Prelude.{◌≡◌, ◌≤◌, ◌++◌, IfOk, IfSome, IsNone, string_bytes, true};
ghost use Rattle.run_report.specs.Outcomes.{outcome_line};
ghost use Rattle.run_report.specs.ErrorLine.{IsToldOnErr, HasNumbers, AppendsErrorText};
ghost use Rattle.run_report.specs.ErrorLine.{error_stream, totals_line};

use crate::report::{Numbers, ReportedEnd};
use crate::{Line, Outcome};
use aio_disk::{Sink, WriteFault};
use aio_trace::numbers_text;
use std::alloc::{AllocError, Global};

// The line of an outcome that has no numbers, which takes no memory; none for one that has.
fn fixed_line(outcome: Outcome) -> Option<&'static str>
    ensures text { IfSome result (λ text. text.now ≡ outcome_line outcome) }
    ensures numbers { IsNone result → HasNumbers outcome }
{
    match outcome {
        Outcome::Done | Outcome::FaultsFound => Some(""),
        Outcome::Usage => Some("usage: aioscan [options] FILE...\n"),
        Outcome::CannotOpen => Some("cannot open\n"),
        Outcome::CannotWrite => Some("cannot write\n"),
        Outcome::NoMemory => Some("out of memory\n"),
        Outcome::Invalid(_, _)
        | Outcome::NoLength(_)
        | Outcome::Unread(_, _)
        | Outcome::Missing(_, _)
        | Outcome::TooLong(_) => None,
    }
}

// The line of an outcome that has numbers.
fn numbered_line(alloc: Global, outcome: Outcome) -> Result<String, AllocError>
    requires { HasNumbers outcome }
    ensures { IfOk result (λ text. string_bytes text ≡ outcome_line outcome) }
{
    match outcome {
        Outcome::Invalid(relation, block) => format!(in alloc; "invalid page {relation} {block}\n"),
        Outcome::NoLength(relation) => format!(in alloc; "no length {relation}\n"),
        Outcome::Unread(relation, block) => format!(in alloc; "unread page {relation} {block}\n"),
        Outcome::Missing(relation, block) => format!(in alloc; "no page {relation} {block}\n"),
        Outcome::TooLong(relation) => format!(in alloc; "relation {relation} is too long\n"),
        _ => Ok(String::new(alloc)),
    }
}

// Writes a text by one write, where it is not empty.
fn write_text<E: Sink>(text: &[u8], err: &mut E) -> Line
    ensures told { IsToldOnErr text.now result (E.written err.old) (E.written err.new)
        (E.faults err.old) (E.faults err.new) }
    ensures later { E.faults err.old ≤ E.faults err.new }
{
    if text.is_empty() {
        return Line::Whole;
    }
    match err.write(text) {
        Ok(()) => Line::Whole,
        Err(WriteFault::Device) => Line::Cut,
        Err(WriteFault::Memory) => Line::NoMemory,
    }
}

// Writes the line of an outcome by one write, or nothing where there is none.
fn write_line<E: Sink>(alloc: Global, outcome: Outcome, err: &mut E) -> Line
    ensures told { IsToldOnErr (outcome_line outcome) result (E.written err.old) (E.written err.new)
        (E.faults err.old) (E.faults err.new) }
    ensures later { E.faults err.old ≤ E.faults err.new }
{
    if let Some(text) = fixed_line(outcome) {
        return write_text(text.as_bytes(), err);
    }
    match numbered_line(alloc, outcome) {
        Ok(text) => write_text(text.as_str().as_bytes(), err),
        Err(_) => Line::NoMemory,
    }
}

// Writes the line of totals by one write.
fn write_totals<E: Sink>(alloc: Global, numbers: Numbers, err: &mut E) -> Line
    ensures told { IsToldOnErr (totals_line true numbers) result (E.written err.old)
        (E.written err.new) (E.faults err.old) (E.faults err.new) }
    ensures later { E.faults err.old ≤ E.faults err.new }
{
    let Numbers {
        incarnations,
        by_workers,
        by_backends,
    } = numbers;
    match numbers_text(alloc, incarnations, by_workers, by_backends) {
        Ok(text) => write_text(text.as_str().as_bytes(), err),
        Err(_) => Line::NoMemory,
    }
}

// Writes the line of an outcome, and that of the totals behind it where it is shown. What cuts the
// first off ends writing.
fn write_lines<E: Sink>(alloc: Global, ended: ReportedEnd, err: &mut E) -> Line
    ensures told { IsToldOnErr
        (outcome_line ended.end.outcome ++ totals_line ended.shows_totals ended.end.numbers) result
        (E.written err.old) (E.written err.new) (E.faults err.old) (E.faults err.new) }
    ensures later { E.faults err.old ≤ E.faults err.new }
{
    let line = write_line(alloc, ended.end.outcome, err);
    if !ended.shows_totals {
        return line;
    }
    match line {
        Line::Whole => write_totals(alloc, ended.end.numbers, err),
        cut => cut,
    }
}

/// Writes warnings behind what was told so far, by one write, where there are any and nothing was
/// cut off.
pub fn write_warnings<E: Sink>(line: Line, warnings: &[u8], err: &mut E) -> Line
    ensures { AppendsErrorText warnings.now (error_stream line (E.written err.old)
        (E.faults err.old))
        (error_stream result (E.written err.new) (E.faults err.new)) }
{
    match line {
        Line::Whole => write_text(warnings, err),
        cut => cut,
    }
}

/// Writes the lines of a run's end behind what was told so far, where nothing was cut off.
pub fn write_end<E: Sink>(alloc: Global, ended: ReportedEnd, err: &mut E) -> Line
    ensures { AppendsErrorText
        (outcome_line ended.end.outcome ++ totals_line ended.shows_totals ended.end.numbers)
        (error_stream ended.end.line (E.written err.old) (E.faults err.old))
        (error_stream result (E.written err.new) (E.faults err.new)) }
{
    match ended.end.line {
        Line::Whole => write_lines(alloc, ended, err),
        cut => cut,
    }
}
