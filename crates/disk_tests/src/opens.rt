//! Which real files are opened.
use crate::files::write_file;
use crate::segments::{SEGMENT, make_sparse, remove};
use aio_disk::{FileShelf, OpenFault, Shelf};
use page_fixtures::files::names_of;
use std::alloc::{Alloc, Allocator, Global};
use std::fs::{self, File, Metadata, OpenOptions};
use std::io;
use std::os::fd::AsRawFd;
use std::os::unix::fs::symlink;
use std::rt::Files;
use std::sync::atomic::{AtomicU64, Ordering};
use std::test::Fail;

// Whether an open of these names is a device fault.
fn is_refused<R: Files<File = File> + AllocGlobal>(rt: &R, words: &[&str]) -> Result<bool, Fail> {
    let names = names_of(rt.alloc(), words)?;
    let mut shelf = FileShelf::new(rt);
    Ok(matches!(shelf.open(names.as_slice()), Err(OpenFault::Device)))
}

#[test]
fn what_has_no_blocks_is_refused(rt: HostRuntime) -> Result<(), Fail> {
    write_file(&rt, "third", 1, 1)?;
    for name in ["missing", ".", "/dev/null", ""] {
        assert!(rt; is_refused(&rt, &["third", name])?, "{name}");
    }
    fs::remove_file(&rt, "third")?;
    Ok(())
}

#[test]
fn a_later_segment_with_no_blocks_is_refused(rt: HostRuntime) -> Result<(), Fail> {
    make_sparse(&rt, "refused", SEGMENT, 1)?;
    fs::create_dir(&rt, "refused.1")?;
    assert!(rt; is_refused(&rt, &["refused"])?);
    assert!(rt; is_refused(&rt, &["refused.2"])?);
    fs::remove_dir(&rt, "refused.1")?;
    fs::remove_file(&rt, "refused")?;
    Ok(())
}

// Whether the file is full cannot be told, and something stands behind it.
#[test]
fn a_file_that_cannot_be_measured_is_refused(rt: HostRuntime) -> Result<(), Fail> {
    symlink(&rt, "/proc/version", "unmeasured")?;
    assert!(rt; !is_refused(&rt, &["unmeasured"])?);
    write_file(&rt, "unmeasured.1", 1, 1)?;
    assert!(rt; is_refused(&rt, &["unmeasured"])?);
    remove(&rt, &["unmeasured", "unmeasured.1"])
}

// The segment behind a file of 254 or 255 bytes has a name that is too long for any file.
#[test]
fn the_longest_names_are_opened(rt: HostRuntime) -> Result<(), Fail> {
    let alloc = rt.alloc();
    for (length, opens) in [(253, true), (254, true), (255, true), (256, false)] {
        let mut name = String::new(alloc);
        for _ in 0..length {
            name.push('n')?;
        }
        if opens {
            write_file(&rt, name.as_str(), 1, 2)?;
        }
        assert_eq!(rt;
            !is_refused(&rt, &[name.as_str()])?,
            opens,
            "{length} bytes"
        );
        if opens {
            fs::remove_file(&rt, name.as_str())?;
        }
    }
    Ok(())
}

/// The files of the system, of which each open is counted. A look at one name, or an open of it,
/// fails so; and a look at another name shows what stands under a third one.
#[derive(Drop)]
struct CountedOpens<'r, R: Files<File = File>> {
    rt: &'r R,
    alloc: Global,
    opens: AtomicU64,
    failing_look: Option<(&'static str, i32)>,
    failing_open: Option<(&'static str, i32)>,
    seen_as: Option<(&'static str, &'static str)>,
}

impl<'r, R: Files<File = File> + AllocGlobal> CountedOpens<'r, R> {
    fn new(rt: &'r R) -> Self {
        CountedOpens {
            rt,
            alloc: rt.alloc(),
            opens: AtomicU64::new(0),
            failing_look: None,
            failing_open: None,
            seen_as: None,
        }
    }
}

// Fails by this number of the system where this is the name.
fn check_name(failing: Option<(&'static str, i32)>, path: &str) -> io::Result<()> {
    match failing {
        Some((name, number)) if name == path => Err(io::Error::from_raw_os_error(number)),
        _ => Ok(()),
    }
}

impl<R: Files<File = File>> Alloc for CountedOpens<'_, R> {
    type A = Global;

    fn alloc(&self) -> Global {
        self.alloc
    }
}

impl<R: Files<File = File>> Files for CountedOpens<'_, R> {
    type File = File;

    type Dir = R::Dir;

    fn open_file(&self, how: &OpenOptions, path: &str) -> io::Result<File> {
        check_name(self.failing_open, path)?;
        let _ = self.opens.fetch_add(1, Ordering::SeqCst);
        self.rt.open_file(how, path)
    }

    fn open_dir(&self, path: &str) -> io::Result<R::Dir> {
        self.rt.open_dir(path)
    }

    fn metadata(&self, path: &str) -> io::Result<Metadata> {
        check_name(self.failing_look, path)?;
        match self.seen_as {
            Some((name, other)) if name == path => self.rt.metadata(other),
            _ => self.rt.metadata(path),
        }
    }

    fn symlink_metadata(&self, path: &str) -> io::Result<Metadata> {
        self.rt.symlink_metadata(path)
    }

    fn copy(&self, from: &str, to: &str) -> io::Result<u64> {
        self.rt.copy(from, to)
    }

    fn rename(&self, from: &str, to: &str) -> io::Result<()> {
        self.rt.rename(from, to)
    }

    fn remove_file(&self, path: &str) -> io::Result<()> {
        self.rt.remove_file(path)
    }

    fn create_dir(&self, path: &str) -> io::Result<()> {
        self.rt.create_dir(path)
    }

    fn remove_dir(&self, path: &str) -> io::Result<()> {
        self.rt.remove_dir(path)
    }

    fn remove_dir_all<B: Allocator>(&self, alloc: B, path: &str) -> io::Result<()> {
        self.rt.remove_dir_all(alloc, path)
    }
}

// An open of a FIFO would wait for its writer, so what is no file is not opened at all.
#[test]
fn what_has_no_blocks_is_not_opened(rt: HostRuntime) -> Result<(), Fail> {
    write_file(&rt, "fourth", 1, 1)?;
    let (reader, _writer) = io::pipe(&rt)?;
    let fifo = format!(in rt.alloc(); "/proc/self/fd/{}", reader.as_raw_fd())?;
    let names = [
        ("fourth", 1),
        (".", 0),
        ("/dev/null", 0),
        (fifo.as_str(), 0),
    ];
    for (name, opens) in names {
        let counted = CountedOpens::new(&rt);
        assert_eq!(rt; is_refused(&counted, &[name])?, opens == 0, "{name}");
        assert_eq!(rt; counted.opens.load(Ordering::SeqCst), opens, "{name}");
    }
    fs::remove_file(&rt, "fourth")?;
    Ok(())
}

// How an open of a relation ends whose second file cannot be looked at or opened. It is 0 without a
// fault, 1 with a device fault, and 2 for want of memory.
fn open_behind<R: Files<File = File> + AllocGlobal>(files: &R) -> Result<u8, Fail> {
    let names = names_of(files.alloc(), &["behind"])?;
    let mut shelf = FileShelf::new(files);
    Ok(match shelf.open(names.as_slice()) {
        Ok(_) => 0,
        Err(OpenFault::Device) => 1,
        Err(OpenFault::Memory) => 2,
    })
}

// Errors of the system at a second segment, and how the open ends.
const ERRORS: [(&str, i32, u8); 9] = [
    ("ENOENT", 2, 0),
    ("ENAMETOOLONG", 36, 0),
    ("EPERM", 1, 1),
    ("EIO", 5, 1),
    ("EACCES", 13, 1),
    ("ENFILE", 23, 1),
    ("EMFILE", 24, 1),
    ("ELOOP", 40, 1),
    ("ENOMEM", 12, 2),
];

#[test]
fn only_a_segment_that_is_not_there_ends_a_relation(rt: HostRuntime) -> Result<(), Fail> {
    make_sparse(&rt, "behind", SEGMENT, 1)?;
    write_file(&rt, "behind.1", 1, 1)?;
    for (error, number, wanted) in ERRORS {
        let mut files = CountedOpens::new(&rt);
        files.failing_look = Some(("behind.1", number));
        assert_eq!(rt; open_behind(&files)?, wanted, "{error} at a look");
        let mut files = CountedOpens::new(&rt);
        files.failing_open = Some(("behind.1", number));
        assert_eq!(rt; open_behind(&files)?, wanted, "{error} at an open");
    }
    remove(&rt, &["behind", "behind.1"])
}

// What stood under the name at the look is gone at the open.
#[test]
fn what_is_opened_is_looked_at_again(rt: HostRuntime) -> Result<(), Fail> {
    write_file(&rt, "fifth", 1, 1)?;
    let mut files = CountedOpens::new(&rt);
    files.seen_as = Some(("/dev/null", "fifth"));
    assert!(rt; is_refused(&files, &["/dev/null"])?);
    assert!(rt; files.opens.load(Ordering::SeqCst) == 1);
    fs::remove_file(&rt, "fifth")?;
    Ok(())
}

// A program that runs can be opened for reading alone (`ETXTBSY`).
#[test]
fn a_file_is_opened_for_reading_alone(rt: HostRuntime) -> Result<(), Fail> {
    assert!(rt; !is_refused(&rt, &["/proc/self/exe"])?);
    Ok(())
}
