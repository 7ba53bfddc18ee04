//! Words that are a command, and what they ask for.
use command_fixtures::words_of;
use command_line::{Command, Refusal, read_command};
use scan_settings::ScanSettings;
use std::alloc::Global;
use std::process::Abort;
use std::test::Fail;

/// The words with a space behind each.
pub(crate) fn joined(alloc: Global, words: &[&str]) -> Result<String, Fail> {
    let mut text = String::new(alloc);
    for word in words {
        text.push_str(word)?;
        text.push_str(" ")?;
    }
    Ok(text)
}

/// Whether the words of a line are a command.
pub(crate) fn is_command(alloc: Global, line: &str) -> Result<bool, Fail> {
    let words = words_of(alloc, line)?;
    match read_command(alloc, words.as_slice()) {
        Ok(_) => Ok(true),
        Err(Refusal::Usage) => Ok(false),
        Err(Refusal::NoMemory) => Err(Fail::from("out of memory")),
    }
}

/// A name, the words, and what they ask for: the method, how many workers and backends, how many
/// blocks are combined, how many I/Os a backend has, its handles, the frames, the flags; the first
/// block and how many of a file of 10 blocks; and the files.
const ROWS: [&str; 11] = [
    "a file alone; f; Worker 3 2 16 16 16 128, 0 10, f",
    "--combine=128; --combine=128 e; Worker 3 2 128 16 16 128, 0 10, e",
    "--checksums; e --checksums; Worker 3 2 16 16 16 128 checksums, 0 10, e",
    "every option; --method sync --workers 4 --backends 5 --combine 6 --concurrency 7 \
     --handles 8 --buffers 19 --from 1 --to 3 --batch f; Sync 4 5 6 7 8 19 batch, 1 3, f",
    "options between and behind files; f --full g --to=12 h --from=12; \
     Worker 3 2 16 16 16 128 full, 12 1, f g h",
    "7 digits; --from 0000007 f; Worker 3 2 16 16 16 128, 7 3, f",
    "--from above --to; --from 5 --to 4 f; Worker 3 2 16 16 16 128, 5 0, f",
    "--method worker; --method=worker f; Worker 3 2 16 16 16 128, 0 10, f",
    "--method ring; --method ring f; Ring 3 2 16 16 16 128, 0 10, f",
    "words behind --; f -- --full -x --; Worker 3 2 16 16 16 128, 0 10, f --full -x --",
    "scan, help and - name files; scan help - f f; Worker 3 2 16 16 16 128, 0 10, scan help - f f",
];

// What a command asks for, as a row has it.
fn command_text(alloc: Global, command: &Command<'_>) -> Result<String, Fail> {
    let ScanSettings {
        method,
        workers,
        backends,
        combine,
        concurrency,
        handles,
        buffers,
        batch,
        full,
        segment: _,
        checksums,
        damaged: _,
        page_text: _,
    } = command.settings();
    let mut text = format!(in alloc; "{method:?} {workers} {backends} {combine}")?;
    write!(text, " {concurrency} {handles} {buffers}")?;
    let flags = [
        (batch, " batch"),
        (full, " full"),
        (checksums, " checksums"),
    ];
    for (set, word) in flags {
        if set {
            text.push_str(word)?;
        }
    }
    let (first, count) = (command.first_block(), command.asked_count(10));
    write!(text, ", {first} {count}, ")?;
    text.push_str(joined(alloc, command.files())?.as_str())?;
    Ok(text)
}

fn check_command<R: Abort + AllocGlobal>(rt: &R, row: &str) -> Result<(), Fail> {
    let mut fields = row.split(';');
    let name = fields.next().unwrap_or("");
    let words = words_of(rt.alloc(), fields.next().unwrap_or(""))?;
    let Ok(command) = read_command(rt.alloc(), words.as_slice()) else {
        return Err(Fail::from(name));
    };
    assert_eq!(rt; command.settings().segment, 131072, "{name}");
    let text = command_text(rt.alloc(), &command)?;
    let wanted = fields.next().unwrap_or("");
    assert!(rt;
        text.split_whitespace().eq(wanted.split_whitespace()),
        "{name}: {text}"
    );
    Ok(())
}

#[test]
fn commands(rt: HostRuntime) -> Result<(), Fail> {
    for row in ROWS {
        check_command(&rt, row)?;
    }
    Ok(())
}

/// A value below the least, the least, the most, and one above it.
const RANGES: [(&str, [&str; 4]); 8] = [
    ("--workers", ["0", "1", "32", "33"]),
    ("--backends", ["0", "1", "16", "17"]),
    ("--combine", ["0", "1", "128", "129"]),
    ("--concurrency", ["0", "1", "256", "257"]),
    ("--handles", ["0", "1", "64", "65"]),
    ("--buffers", ["15", "16", "16384", "16385"]),
    ("--from", ["-1", "0", "2097151", "2097152"]),
    ("--to", ["-1", "0", "2097151", "2097152"]),
];

// Whether an option takes a value, in each of its two forms.
fn check_value<R: Abort + AllocGlobal>(
    rt: &R,
    option: &str,
    value: &str,
    taken: bool,
) -> Result<(), Fail> {
    let apart = format!(in rt.alloc(); "{option} {value} f")?;
    let joined = format!(in rt.alloc(); "{option}={value} f")?;
    let are_taken = (
        is_command(rt.alloc(), apart.as_str())?,
        is_command(rt.alloc(), joined.as_str())?,
    );
    assert_eq!(rt; are_taken, (taken, taken), "{apart}");
    Ok(())
}

#[test]
fn ranges(rt: HostRuntime) -> Result<(), Fail> {
    for (option, values) in RANGES {
        for (value, taken) in values.into_iter().zip([false, true, true, false]) {
            check_value(&rt, option, value, taken)?;
        }
    }
    Ok(())
}

#[test]
fn at_most_1024_files(rt: HostRuntime) -> Result<(), Fail> {
    let alloc = rt.alloc();
    let mut words = Vec::new(alloc);
    for _ in 0..1024 {
        words.push("f".to_string(alloc)?)?;
    }
    let count = match read_command(alloc, words.as_slice()) {
        Ok(command) => command.files().len(),
        Err(_) => 0,
    };
    assert_eq!(rt; count, 1024);
    words.push("f".to_string(alloc)?)?;
    assert!(rt; matches!(read_command(alloc, words.as_slice()), Err(Refusal::Usage)));
    Ok(())
}
