//! Plans: which blocks are read by one I/O, and how far a stream looks ahead.
ghost use Rattle.std.specs.Prelude.{◌≡◌, ◌++◌, None, IfOk};
ghost use Rattle.read_plan.specs.OfferAnswer.{flushed_runs};
ghost use Rattle.read_plan.specs.Runs.{AreRuns};

use read_plan::{Offer, Plan, Run};
use std::alloc::{AllocError, Global};
use std::test::Fail;

// The blocks of one segment of a relation, as PostgreSQL is built by default.
const SEGMENT: u32 = 131072;

// Keeps the run that an answer hands out.
fn keep(runs: &mut Vec<Run>, offer: Offer) -> Result<(), AllocError>
    ensures { IfOk result (λ _. runs.new.items ≡ runs.old.items ++ flushed_runs offer) }
{
    if let Offer::Flush(run) = offer {
        runs.push(run)?;
    }
    Ok(())
}

// The runs that a plan makes of these blocks.
fn runs_of(alloc: Global, mut plan: Plan, blocks: &[u32]) -> Result<Vec<Run>, AllocError>
    requires { plan.pending ≡ None }
    ensures { IfOk result (λ runs. AreRuns plan.combine plan.segment runs.items blocks.now) }
{
    let mut runs = Vec::new(alloc);
    for block in blocks {
        keep(&mut runs, plan.offer(*block))?;
    }
    if let Some(run) = plan.take_pending() {
        runs.push(run)?;
    }
    Ok(runs)
}

#[test]
fn a_run_of_combine_blocks_is_flushed(rt: HostRuntime) {
    let mut plan = Plan::new(4, 16, 64, false, SEGMENT);
    let flush = Offer::Flush(Run { first: 5, count: 4 });
    let table = [
        (5, Offer::Start),
        (6, Offer::Extended),
        (7, Offer::Extended),
        (8, Offer::Extended),
        (9, flush),
    ];
    for (block, answer) in table {
        assert_eq!(rt; plan.offer(block), answer, "block {block}");
    }
    let last = Some(Run { first: 9, count: 1 });
    assert_eq!(rt; plan.pending(), last);
    assert_eq!(rt; plan.take_pending(), last);
    assert_eq!(rt; plan.pending(), None);
}

#[test]
fn blocks_that_are_no_neighbours(rt: HostRuntime) {
    let mut plan = Plan::new(4, 16, 64, false, SEGMENT);
    let three = Offer::Flush(Run { first: 3, count: 1 });
    let greatest = Offer::Flush(Run {
        first: 4294967295,
        count: 1,
    });
    for (block, answer) in [
        (3, Offer::Start),
        (3, three),
        (4294967295, three),
        (0, greatest),
    ] {
        assert_eq!(rt; plan.offer(block), answer, "block {block}");
    }
}

#[test]
fn runs_of_a_list(rt: HostRuntime) -> Result<(), Fail> {
    let plan = Plan::new(2, 16, 64, false, SEGMENT);
    let runs = runs_of(rt.alloc(), plan, &[1, 2, 3, 7])?;
    let expected = [
        Run { first: 1, count: 2 },
        Run { first: 3, count: 1 },
        Run { first: 7, count: 1 },
    ];
    assert_eq!(rt; runs.as_slice(), expected.as_slice());
    Ok(())
}

#[test]
fn no_run_crosses_a_multiple_of_the_segment_size(rt: HostRuntime) -> Result<(), Fail> {
    let blocks = [0, 1, 2, 3, 4, 5, 6, 7, 8, 9];
    let runs = runs_of(rt.alloc(), Plan::new(16, 16, 64, false, 4), &blocks)?;
    let expected = [
        Run { first: 0, count: 4 },
        Run { first: 4, count: 4 },
        Run { first: 8, count: 2 },
    ];
    assert_eq!(rt; runs.as_slice(), expected.as_slice());
    Ok(())
}

#[test]
fn segments_of_one_block(rt: HostRuntime) {
    let mut plan = Plan::new(16, 16, 64, false, 1);
    let first = Run { first: 6, count: 1 };
    let second = Run { first: 7, count: 1 };
    assert_eq!(rt; plan.offer(6), Offer::Start);
    assert_eq!(rt; plan.offer(7), Offer::Flush(first));
    assert_eq!(rt; plan.offer(8), Offer::Flush(second));
}

#[test]
fn distances(rt: HostRuntime) {
    let mut plan = Plan::new(16, 16, 5, false, SEGMENT);
    assert_eq!(rt; plan.distance(), 1);
    for distance in [2, 4, 5] {
        plan.waited();
        assert_eq!(rt; plan.distance(), distance);
    }
    plan.hit();
    assert_eq!(rt; plan.distance(), 4);
    assert_eq!(rt; Plan::new(16, 16, 10, true, SEGMENT).distance(), 10);
}

// Whether the distance begins at the 4 blocks of a run, and to what it is raised; the limit is 10.
const RAISED: [(bool, u32, u32); 8] = [
    (false, 0, 1),
    (false, 1, 1),
    (false, 7, 7),
    (false, 10, 10),
    (false, 11, 10),
    (true, 3, 4),
    (true, 5, 5),
    (true, 4294967295, 10),
];

#[test]
fn raised_distances(rt: HostRuntime) {
    for (full, to, distance) in RAISED {
        let mut plan = Plan::new(4, 16, 10, full, SEGMENT);
        plan.raise_distance(to);
        assert_eq!(rt; plan.distance(), distance, "full {full}, to {to}");
        plan.raise_distance(1);
        assert_eq!(rt; plan.distance(), distance, "full {full}, to {to}, to 1");
    }
}

#[test]
fn look_ahead(rt: HostRuntime) {
    let mut plan = Plan::new(16, 1, 2, true, SEGMENT);
    assert!(rt; plan.may_look_ahead());
    plan.started();
    assert!(rt; !plan.may_look_ahead(), "as many I/Os as there may be");
    plan.finished();
    plan.taken();
    assert!(rt; plan.may_look_ahead());
    plan.taken();
    assert!(rt; !plan.may_look_ahead(), "as many blocks ahead as wanted");
    plan.given();
    assert!(rt; plan.may_look_ahead());
}
