//! What a chain makes of a read's answer where no page is marked.
use crate::reads::{Case, case_of, check_case, result_of};
use aio_callback::CallbackId::{Buffer, Count, File};
use aio_callback::{CallbackId, Raw};
use aio_result::Status;
use aio_word::Class;
use std::test::Fail;

#[test]
fn what_a_stream_makes_of_answers(rt: HostRuntime) -> Result<(), Fail> {
    let invalid = result_of(2, Status::Error, 2, 2);
    let first_invalid = result_of(2, Status::Error, 0, 0);
    let part = result_of(1, Status::Partial, 0, 3);
    let past_end = result_of(1, Status::Error, 2, 0);
    let unread = result_of(1, Status::Error, 1, 0);
    let whole = result_of(0, Status::Good, 0, 4);
    for case in [
        case_of(Raw::Read(4), Some(2), Class::Whole, invalid, 2),
        case_of(Raw::Read(3), None, Class::Short, part, 3),
        case_of(Raw::Read(0), None, Class::Short, past_end, 0),
        case_of(Raw::Failed, None, Class::Failed, unread, 0),
        case_of(Raw::Read(4), None, Class::Whole, whole, 4),
        case_of(Raw::Read(4), Some(0), Class::Whole, first_invalid, 0),
        case_of(Raw::Read(3), Some(3), Class::Short, part, 3),
    ] {
        check_case(&rt, &[Count, Buffer, File], case, None)?;
    }
    Ok(())
}

#[test]
fn without_a_check_after_the_file_nothing_is_good(rt: HostRuntime) -> Result<(), Fail> {
    let whole = result_of(0, Status::Good, 0, 4);
    let invalid = result_of(2, Status::Error, 2, 2);
    let cut = result_of(1, Status::Partial, 0, 2);
    let failed = result_of(0, Status::Good, 0, -1);
    let of_four = |bad, value, good| case_of(Raw::Read(4), bad, Class::Whole, value, good);
    let none = case_of(Raw::Failed, None, Class::Failed, failed, 0);
    let rows: [(&[CallbackId], Case); 7] = [
        (&[], of_four(None, whole, 0)),
        (&[], none),
        (&[Count], of_four(None, whole, 0)),
        (&[File], of_four(Some(2), whole, 0)),
        (&[Buffer], of_four(Some(2), invalid, 0)),
        (&[File, Buffer], of_four(Some(2), cut, 0)),
        (&[Buffer, Count, File, Buffer], of_four(None, whole, 4)),
    ];
    for (ids, case) in rows {
        check_case(&rt, ids, case, None)?;
    }
    Ok(())
}
