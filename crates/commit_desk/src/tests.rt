use super::*;
use std::test::*;

#[test]
fn three_pages(rt: HostRuntime) -> Result<(), Fail> {
    let mut desk = Desk::new(rt.alloc(), 3, 2).ok().ok_or("memory")?;
    assert_eq!(rt; desk.claim(), Claim::Page(1));
    assert_eq!(rt; desk.claim(), Claim::Page(2));
    assert_eq!(rt; desk.claim(), Claim::Full);
    assert_eq!(rt; desk.take(1), None);
    assert_eq!(rt; desk.finish(3, 9u8), Err(9), "page 3 isn't claimed");
    assert_eq!(rt; desk.finish(1, 7u8), Ok(()));
    assert_eq!(rt; desk.finish(1, 8u8), Err(8), "page 1 is finished");
    assert_eq!(rt; desk.take(1), Some(7));
    assert_eq!(rt; desk.take(1), None, "page 1 is taken");
    assert_eq!(rt; desk.finish(1, 8u8), Err(8), "page 1 is finished");
    assert_eq!(rt; desk.claimed(), 2);
    assert_eq!(rt; desk.committed(), 0);
    desk.done(1);
    assert_eq!(rt; desk.committed(), 1);
    assert_eq!(rt; desk.claim(), Claim::Page(3));
    assert_eq!(rt;
        desk.claim(),
        Claim::Over,
        "all pages are claimed, and as far ahead as may be"
    );
    Ok(())
}

#[test]
fn a_stopped_desk_claims_no_more(rt: HostRuntime) -> Result<(), Fail> {
    let mut desk = Desk::new(rt.alloc(), 100_000, 1).ok().ok_or("memory")?;
    assert_eq!(rt; desk.claim(), Claim::Page(1));
    desk.stop();
    assert_eq!(rt; desk.claim(), Claim::Over, "over comes before full");
    assert_eq!(rt; desk.finish(1, 7u8), Ok(()));
    assert_eq!(rt; desk.take(1), Some(7));
    Ok(())
}
