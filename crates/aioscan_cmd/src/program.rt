//! A run of the program: the words of the command line, the files of the system and the two
//! standard streams go to the top call.
ghost use Rattle.std.specs.Prelude.{◌≡◌, ◌≤◌, ◌⊎◌, map, None, string_bytes};
ghost use Rattle.std.specs.Process.{exit_status};
ghost use Rattle.command_line.specs.Words.{command_of};

use crate::{Report, aioscan};
use aio_disk::{FileShelf, StdSink};
use std::alloc::AllocError;
use std::env;
use std::fs::File;
use std::io::ErrorKind;
use std::process::ExitCode;
use std::rt::{Env, Files};
use std::sync::Wait;
use std::thread::Threads;

/// The exit status where there is no memory for the words.
const NO_MEMORY: u8 = 5;

// The words of the command line without the program's name. One that is not UTF-8 makes a faulty
// command line, as no words at all do. No contract can say what the system hands over, so there is
// no clause.
fn words<R: Env + AllocGlobal>(rt: &R) -> Result<Vec<String>, AllocError> {
    let mut words = Vec::new(rt.alloc());
    match env::args(rt) {
        Ok(args) => {
            for word in args.skip(1) {
                words.push(word)?;
            }
            Ok(words)
        }
        Err(error) if error.kind() == ErrorKind::OutOfMemory => Err(AllocError),
        Err(_) => Ok(words),
    }
}

// The exit code of a run.
fn exit_of(report: &Report) -> ExitCode
    ensures { exit_status result ≡ report.now.status }
{
    ExitCode::from(report.status)
}

/// Runs the program with these words, over the files of the system and the two standard streams.
/// The exit code is the status of the run. It may wait.
pub fn run_words<R>(rt: &R, words: &[String]) -> ExitCode
where
    R: Files<File = File> + AllocGlobal + Print + Eprint + Threads + Wait + Sync,
    ensures usage { exit_status result ≡ 2 → command_of (map string_bytes words.now) ≡ None }
    ensures refused { command_of (map string_bytes words.now) ≡ None
        → (exit_status result ≡ 2) ⊎ (exit_status result ≡ 5) }
    ensures most { exit_status result ≤ 7 }
{
    let mut shelf = FileShelf::new(rt);
    let mut out = StdSink::out(rt);
    let mut err = StdSink::err(rt);
    let report = aioscan(rt, rt.alloc(), words, &mut shelf, &mut out, &mut err);
    exit_of(&report)
}

/// Runs the program with the words of the command line, by [`run_words`]. Without memory for them
/// the exit code is 5. No contract can say which words the system hands over.
pub fn run<R>(rt: &R) -> ExitCode
where
    R: Env + Files<File = File> + AllocGlobal + Print + Eprint + Threads + Wait + Sync,
    ensures most { exit_status result ≤ 7 }
{
    match words(rt) {
        Ok(words) => run_words(rt, words.as_slice()),
        Err(_) => ExitCode::from(NO_MEMORY),
    }
}
