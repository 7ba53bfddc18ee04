//! The result of an I/O, and the number that it is encoded as.
use aio_result::{AioResult, BadStatus, Status, decode, encode};

// A result by its parts, in the order of the fields.
fn result_of(id: u8, status: Status, error: u32, number: i32) -> AioResult {
    AioResult {
        id,
        status,
        error,
        result: number,
    }
}

#[test]
fn results_and_their_numbers(rt: HostRuntime) {
    let table = [
        (result_of(0, Status::Good, 0, 4), 0x0000000400000040),
        (result_of(1, Status::Partial, 0, 3), 0x0000000300000081),
        (result_of(1, Status::Error, 1, 0), 0x0000000000000301),
        (result_of(1, Status::Error, 2, 0), 0x0000000000000501),
        (result_of(2, Status::Error, 2, 2), 0x0000000200000502),
        (result_of(2, Status::Error, 0, 0), 0x0000000000000102),
        (result_of(4, Status::Warning, 1, 4), 0x00000004000002c4),
        (result_of(4, Status::Warning, 1, 3), 0x00000003000002c4),
        (result_of(0, Status::Good, 0, -1), 0xffffffff00000040),
    ];
    for (value, number) in table {
        assert!(rt; value.id < 64 && value.error < 1 << 23);
        assert_eq!(rt; encode(&value), number, "of {value:?}");
        assert_eq!(rt; decode(number), Ok(value), "at {number:#x}");
    }
}

#[test]
fn status_bits_above_the_last_status(rt: HostRuntime) {
    assert_eq!(rt; decode(0x140), Err(BadStatus(5)));
}
