//! What becomes of bad pages that are to be zeroed or given as they are.
use crate::marked_pages::Marked;
use crate::reads::{Case, case_of, check_case, result_of};
use aio_callback::CallbackId::{Buffer, Count, File, MarkBuffer, ZeroBuffer};
use aio_callback::{CallbackId, Raw};
use aio_result::Status;
use aio_word::Class;
use page_check::PageMark::{Damaged, Zeroed};
use std::test::Fail;

#[test]
fn bad_pages_are_zeroed_or_marked(rt: HostRuntime) -> Result<(), Fail> {
    let part = result_of(1, Status::Partial, 0, 3);
    let unread = result_of(1, Status::Error, 1, 0);
    let past_end = result_of(1, Status::Error, 2, 0);
    let behind = case_of(Raw::Read(3), Some(3), Class::Short, part, 3);
    let failed = case_of(Raw::Failed, Some(2), Class::Failed, unread, 0);
    let none = case_of(Raw::Read(0), Some(2), Class::Short, past_end, 0);
    for (buffer, id, mark) in [(ZeroBuffer, 4, Zeroed), (MarkBuffer, 5, Damaged)] {
        let warning = result_of(id, Status::Warning, 1, 4);
        let of_part = result_of(id, Status::Warning, 1, 3);
        let of_four = |page| case_of(Raw::Read(4), Some(page), Class::Whole, warning, 4);
        let of_three = case_of(Raw::Read(3), Some(2), Class::Short, of_part, 3);
        for (case, marked) in [
            (of_four(0), Some((0, mark))),
            (of_four(2), Some((2, mark))),
            (of_four(3), Some((3, mark))),
            (of_three, Some((2, mark))),
            (behind, None),
            (failed, None),
            (none, None),
        ] {
            check_case(&rt, &[Count, buffer, File], case, marked)?;
        }
    }
    Ok(())
}

// The callbacks run from the last to the first. A page that is marked stays bad for those behind.
#[test]
fn marks_go_with_other_callbacks(rt: HostRuntime) -> Result<(), Fail> {
    let zeroed = result_of(4, Status::Warning, 1, 4);
    let damaged = result_of(5, Status::Warning, 1, 4);
    let invalid = result_of(2, Status::Error, 2, 2);
    let of_four = |value, good| case_of(Raw::Read(4), Some(2), Class::Whole, value, good);
    let rows: [(&[CallbackId], Case, Marked); 10] = [
        (&[ZeroBuffer, Buffer, File], of_four(invalid, 2), None),
        (&[MarkBuffer, Buffer, File], of_four(invalid, 2), None),
        (
            &[Count, Buffer, ZeroBuffer, File],
            of_four(zeroed, 4),
            Some((2, Zeroed)),
        ),
        (
            &[Count, Buffer, MarkBuffer, File],
            of_four(invalid, 2),
            None,
        ),
        (
            &[MarkBuffer, ZeroBuffer, File],
            of_four(zeroed, 4),
            Some((2, Zeroed)),
        ),
        (
            &[ZeroBuffer, MarkBuffer, File],
            of_four(zeroed, 4),
            Some((2, Zeroed)),
        ),
        (
            &[MarkBuffer, MarkBuffer, File],
            of_four(damaged, 4),
            Some((2, Damaged)),
        ),
        (
            &[MarkBuffer, File, Count],
            of_four(damaged, 4),
            Some((2, Damaged)),
        ),
        (&[Count, ZeroBuffer], of_four(zeroed, 0), None),
        (&[Count, MarkBuffer], of_four(damaged, 0), None),
    ];
    for (ids, case, marked) in rows {
        check_case(&rt, ids, case, marked)?;
    }
    Ok(())
}
