//! One thread is client and server, so each answer is certain.
use crate::doubling::{DoublingHandoff, doubled};
use handoff::Completion;
use std::test::Fail;

#[test]
fn what_no_server_takes_comes_back(rt: HostRuntime) -> Result<(), Fail> {
    let (handoff, mut client) = DoublingHandoff::open(rt.alloc(), &1000)?;
    handoff.put(&mut client, Vec::from_array(rt.alloc(), [1, 2, 3])?);
    match handoff.complete(&rt, &mut client) {
        Completion::Request(numbers) => assert!(rt; numbers.as_slice() == [1, 2, 3].as_slice()),
        Completion::Reply(_) => panic!(rt; "a reply, and there is no server"),
    }
    Ok(())
}

#[test]
fn a_server_that_comes_late_takes_the_next_request(rt: HostRuntime) -> Result<(), Fail> {
    let (handoff, mut client) = DoublingHandoff::open(rt.alloc(), &1000)?;
    handoff.put(&mut client, Vec::from_array(rt.alloc(), [1, 2, 3])?);
    assert!(rt; matches!(handoff.complete(&rt, &mut client), Completion::Request(_)));
    assert!(rt; handoff.try_next().is_none());
    handoff.put(&mut client, Vec::from_array(rt.alloc(), [4, 5])?);
    let Some((numbers, pending)) = handoff.try_next() else {
        panic!(rt; "no request, and one was put")
    };
    assert!(rt; numbers.as_slice() == [4, 5].as_slice());
    assert!(rt; handoff.try_next().is_none());
    handoff.reply(pending, doubled(numbers));
    assert!(rt; handoff.try_next().is_none());
    match handoff.complete(&rt, &mut client) {
        Completion::Reply(numbers) => assert!(rt; numbers.as_slice() == [8, 10].as_slice()),
        Completion::Request(_) => panic!(rt; "the request, and a server has replied"),
    }
    handoff.close(&mut client);
    assert!(rt; handoff.next(&rt).is_none());
    assert!(rt; handoff.next(&rt).is_none() && handoff.try_next().is_none());
    Ok(())
}
