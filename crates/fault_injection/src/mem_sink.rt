//! A sink in memory.
ghost use Rattle.std.specs.Prelude.{◌≡◌, take, Some, IfSome, OnOk, IsErrOf, IsNone, IsSome};
ghost use Rattle.aio_disk.specs.declared.fault.WriteFault.TheVariants.{Device, Memory};
ghost use Rattle.fault_injection.specs.MemSink.{fresh_sink, cut_of, next_cut, with_write};
ghost use Rattle.fault_injection.specs.MemSink.{with_failed_write};

use aio_disk::{Sink, WriteFault};
use std::alloc::Global;
use std::marker::Model;

/// A sink that keeps what is written, and fails where it is told to.
#[derive(Drop)]
pub struct MemSink {
    bytes: Vec<u8>,
    fail_list: Vec<(u64, u64)>,
    write_count: u64,
    fault_count: u64,
}

impl Model for MemSink {
    ghost use Rattle.fault_injection.specs.MemSink.{MemSinkState};

    ghost Value = { MemSinkState };

    ghost view = { λ sink. record {
      bytes = sink.bytes.items;
      fails = sink.fail_list.items;
      writes = sink.write_count;
      faults = sink.fault_count;
    } };
}

// How many bytes a write takes before it fails, where the list has it.
fn find_cut(fails: &[(u64, u64)], write: u64) -> Option<u64>
    ensures { result ≡ cut_of fails.now write }
{
    fails.iter().find(|fail| fail.0 == write).map(|fail| fail.1)
}

impl MemSink {
    /// A sink whose write k, counted from 1, takes the first n of its bytes and fails, for each
    /// entry (k, n). It takes no memory.
    pub fn make(alloc: Global, fails: Vec<(u64, u64)>) -> MemSink
        ensures { result ≡ fresh_sink fails.items }
    {
        MemSink {
            bytes: Vec::new(alloc),
            fail_list: fails,
            write_count: 0,
            fault_count: 0,
        }
    }

    /// What was written.
    pub fn bytes(&self) -> &[u8]
        ensures { result.now ≡ self.now.bytes }
    {
        self.bytes.as_slice()
    }

    /// Writes, as [`Sink::write`] does: a device fault comes exactly where the list has this
    /// write. A write that finds no memory leaves the sink as it was, and is not counted.
    pub fn write(&mut self, bytes: &[u8]) -> Result<(), WriteFault>
        ensures unlisted { OnOk result (IsNone (next_cut self.old)) }
        ensures ok { OnOk result (self.new ≡ with_write self.old bytes.now) }
        ensures listed { IsErrOf result Device → IsSome (next_cut self.old) }
        ensures device { IsErrOf result Device → IfSome (next_cut self.old) (λ n.
            self.new ≡ with_failed_write self.old (take n bytes.now)) }
        ensures memory { IsErrOf result Memory → self.new ≡ self.old }
    {
        let number = self.write_count.saturating_add(1);
        match find_cut(self.fail_list.as_slice(), number) {
            None => {
                if self.bytes.extend_from_slice(bytes).is_err() {
                    return Err(WriteFault::Memory);
                }
                self.write_count = number;
                Ok(())
            }
            Some(cut) => {
                let count = cut.min(bytes.len() as u64) as usize;
                if self.bytes.extend_from_slice(&bytes[..count]).is_err() {
                    return Err(WriteFault::Memory);
                }
                self.write_count = number;
                self.fault_count = self.fault_count.saturating_add(1);
                Err(WriteFault::Device)
            }
        }
    }
}

impl Sink for MemSink {
    ghost written = { λ sink. Some sink.bytes };

    ghost faults = { λ sink. sink.faults };

    fn write(&mut self, bytes: &[u8]) -> Result<(), WriteFault> {
        MemSink::write(self, bytes)
    }
}
