//! Sources of blocks: which blocks each gives, and in which order.
ghost use Rattle.std.specs.Prelude.{◌≡◌, ◌==◌, ◌%◌, ◌<◌, IfOk, filter};
ghost use Rattle.block_source.specs.BlocksLeft.{consecutive_blocks};

use block_source::{BlockSource, BlockTest, Filtered, Listed, Range, Stepped};
use std::alloc::{AllocError, Global};
use std::test::Fail;

// All blocks that a source gives, with their data.
fn all_of<P: Copy, S: BlockSource<P> + Drop>(
    alloc: Global,
    mut source: S,
) -> Result<Vec<(u32, P)>, AllocError>
    ensures { IfOk result (λ given. given.items ≡ S.left source) }
{
    let mut given = Vec::new(alloc);
    while let Some(next) = source.next() {
        given.push(next)?;
    }
    Ok(given)
}

// Accepts the even blocks.
#[derive(Drop)]
struct Even;

impl BlockTest for Even {
    ghost use Rattle.std.specs.Prelude.{◌==◌, ◌%◌};

    ghost accepts = { λ _ block. block % 2 == 0 };

    fn is_accepted(&self, block: u32) -> bool {
        block % 2 == 0
    }
}

// Accepts the multiples of a number.
#[derive(Drop)]
struct MultipleOf {
    factor: u32,
    ghost positive: { 0 < factor },
}

impl BlockTest for MultipleOf {
    ghost use Rattle.std.specs.Prelude.{◌==◌, ◌%◌};

    ghost accepts = { λ test block. block % test.factor == 0 };

    fn is_accepted(&self, block: u32) -> bool {
        block % self.factor == 0
    }
}

// The blocks below ten that are multiples of a number.
fn multiples(alloc: Global, factor: u32) -> Result<Vec<(u32, ())>, AllocError>
    requires { 0 < factor }
    ensures { IfOk result (λ all. all.items ≡ filter (λ b. b.0 % factor == 0)
        (consecutive_blocks 0 10)) }
{
    all_of(
        alloc,
        Filtered::new(Range::new(0, 10), MultipleOf { factor }),
    )
}

#[test]
fn blocks_of_each_source(rt: HostRuntime) -> Result<(), Fail> {
    let alloc = rt.alloc();
    let range = all_of(alloc, Range::new(4294967294, 2))?;
    assert_eq!(rt;
        range.as_slice(),
        [(4294967294, ()), (4294967295, ())].as_slice()
    );
    assert!(rt; all_of(alloc, Range::new(7, 0))?.is_empty());

    let stepped = all_of(alloc, Stepped::new(2, 3, 3))?;
    assert_eq!(rt; stepped.as_slice(), [(2, ()), (5, ()), (8, ())].as_slice());

    let filtered = all_of(alloc, Filtered::new(Range::new(0, 6), Even))?;
    assert_eq!(rt; filtered.as_slice(), [(0, ()), (2, ()), (4, ())].as_slice());

    let list = vec![in alloc; (9, 'a'), (4, 'b'), (9, 'c')]?;
    let listed = all_of(alloc, Listed::new(list))?;
    assert_eq!(rt;
        listed.as_slice(),
        [(9, 'a'), (4, 'b'), (9, 'c')].as_slice()
    );
    Ok(())
}

#[test]
fn a_test_that_is_known_at_run_time(rt: HostRuntime) -> Result<(), Fail> {
    let given = multiples(rt.alloc(), 4)?;
    assert_eq!(rt; given.as_slice(), [(0, ()), (4, ()), (8, ())].as_slice());
    Ok(())
}

#[test]
fn a_filter_of_a_filter(rt: HostRuntime) -> Result<(), Fail> {
    let list = vec![in rt.alloc(); (6, 'a'), (4, 'b'), (9, 'c'), (6, 'd'), (0, 'e')]?;
    let even = Filtered::new(Listed::new(list), Even);
    let mut source = Filtered::new(even, MultipleOf { factor: 3 });
    assert_eq!(rt; source.next(), Some((6, 'a')));
    assert_eq!(rt; source.next(), Some((6, 'd')));
    assert_eq!(rt; source.next(), Some((0, 'e')));
    assert_eq!(rt; source.next(), None);
    assert_eq!(rt; source.next(), None);
    Ok(())
}
