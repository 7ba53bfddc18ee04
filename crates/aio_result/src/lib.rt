//! The result of an I/O, and the 64-bit number in which it is kept and passed on.
//!
//! After `PgAioResult` and `PgAioResultStatus` of PostgreSQL's `aio_types.h`. The contract says
//! that `encode` and `decode` undo each other: each result whose parts fit their bits has one
//! number, which gives just this result back, and no number decodes but those of such results.
#![tactic(auto)]

ghost use Rattle.std.specs.Prelude.{◌≡◌, ◌↔◌, ◌^◌, ◌<◌, IfOk, IfErr, IsErr};
ghost use Rattle.aio_result.specs.EncodedResult.{encoded_result, status_bits, IsInRange};
ghost use Rattle.aio_result.specs.EncodedResult.{BitsAreStatus};

/// How an I/O ended (`PgAioResultStatus`).
#[derive(Clone, Copy, Debug, PartialEq, Eq)]
pub enum Status {
    /// Not known yet. No callback gives it.
    Unknown,
    /// All that was asked for: `PGAIO_RS_OK`.
    Good,
    /// Less than what was asked for; the rest may be asked for again.
    Partial,
    /// All that was asked for, with something to report.
    Warning,
    /// It failed.
    Error,
}

/// The result of an I/O (`PgAioResult`).
#[derive(Clone, Copy, Debug, PartialEq, Eq)]
pub struct AioResult {
    /// The callback that gave this result, below 64; 0 for the raw answer of the device.
    pub id: u8,
    pub status: Status,
    /// What went wrong, in the numbering of the callback `id`, below 2^23 (`error_data`).
    pub error: u32,
    /// How much was done, in the units of the target (blocks, for a read of a relation), or a
    /// negative number from the device.
    pub result: i32,
}

/// What a number that is no result has in its status bits: 5, 6 or 7.
#[derive(Clone, Copy, Debug, PartialEq, Eq)]
pub struct BadStatus(pub u8);

/// The number of a result. It takes no memory.
pub fn encode(value: &AioResult) -> u64
    requires id { value.now.id < 64 }
    requires error { value.now.error < 2 ^ 23 }
    ensures { result ≡ encoded_result value.now }
{
    let high = value.result.cast_unsigned() as u64;
    let low = value.id as u64 + ((value.status as u64) << 6) + ((value.error as u64) << 9);
    (high << 32) + low
}

fn status_of(bits: u8) -> Option<Status>
    ensures { BitsAreStatus bits result }
{
    match bits {
        0 => Some(Status::Unknown),
        1 => Some(Status::Good),
        2 => Some(Status::Partial),
        3 => Some(Status::Warning),
        4 => Some(Status::Error),
        _ => None,
    }
}

/// The result with this number, or the number's status bits where they are no status. It takes no
/// memory.
pub fn decode(number: u64) -> Result<AioResult, BadStatus>
    ensures number { IfOk result (λ r. IsInRange r × (encoded_result r ≡ number)) }
    // So what was encoded is decoded: this is the only result with the number.
    ensures only { (r : AioResult) → IsInRange r → encoded_result r ≡ number → result ≡ Ok r }

    ensures bad_status { IsErr result ↔ (4 < status_bits number) }
    ensures bits { IfErr result (λ bad. bad.0 ≡ status_bits number) }
{
    let bits = (number >> 6 & 7) as u8;
    let Some(status) = status_of(bits) else {
        return Err(BadStatus(bits));
    };
    Ok(AioResult {
        id: (number & 63) as u8,
        status,
        error: (number >> 9 & 0x7f_ffff) as u32,
        result: ((number >> 32) as u32).cast_signed(),
    })
}
