//! Jobs that end at a fault.
use crate::helpers::checks::{check_counts, check_jobs, scan_pages};
use crate::helpers::opening::{METHODS, USUAL, one_handle};
use scan_rounds::{Ending, MethodKind, ScanSettings};
use std::test::Fail;

#[test]
fn jobs_end_at_their_first_fault(rt: HostRuntime) -> Result<(), Fail> {
    let wanted = [(10, 2, Ending::Invalid(12)), (13, 2, Ending::PastEnd(15))];
    for (name, method) in METHODS {
        let settings = ScanSettings { method, ..USUAL };
        let outcome = scan_pages(&rt, &settings, (15, Some(12)), &[], &[&[(10, 4), (13, 64)]])?;
        check_jobs(&rt, name, outcome.jobs.as_slice(), &wanted)?;
    }
    Ok(())
}

#[test]
fn a_round_goes_on_behind_a_fault(rt: HostRuntime) -> Result<(), Fail> {
    let wanted = [(0, 2, Ending::Unread(2)), (0, 5, Ending::Pages)];
    for (name, method) in [("sync", MethodKind::Sync), ("ring", MethodKind::Ring)] {
        let outcome = scan_pages(
            &rt,
            &one_handle(method),
            (5, None),
            &[(0, 3)],
            &[&[(0, 5)], &[(0, 5)]],
        )?;
        check_jobs(&rt, name, outcome.jobs.as_slice(), &wanted)?;
        check_counts(&rt, name, &outcome, (1, 6, 0));
    }
    Ok(())
}

#[test]
fn a_worker_fails(rt: HostRuntime) -> Result<(), Fail> {
    let settings = one_handle(MethodKind::Worker);
    let fails = [(0, 1), (1, 1)];
    let outcome = scan_pages(&rt, &settings, (5, None), &fails, &[&[(0, 5)]])?;
    let wanted = [(0, 0, Ending::Unread(0))];
    check_jobs(&rt, "worker", outcome.jobs.as_slice(), &wanted)?;
    assert_eq!(&rt; (outcome.unread, outcome.incarnations), (1, 1));
    Ok(())
}
