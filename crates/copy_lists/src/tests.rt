use super::*;
use std::test::Fail;

#[test]
fn copies_are_equal(rt: HostRuntime) -> Result<(), Fail> {
    let mut text = Text::from_bytes(rt.alloc(), b"PostScript")?;
    text.push(b' ')?;
    text.extend(b"Level 2")?;
    assert!(rt; text.copy()?.as_slice() == b"PostScript Level 2".as_slice());
    let mut list: Sequence<u32> = Sequence::new(rt.alloc());
    list.push(7)?;
    list.push(8)?;
    assert!(rt; list.copy()? == list);
    assert!(rt; list.len() == 2);
    let mut lists: Sequence<Sequence<u32>> = Sequence::new(rt.alloc());
    lists.push(list)?;
    assert!(rt; lists.copy()? == lists);
    lists.clear();
    assert!(rt; lists.is_empty());
    let mut stack: Stack<u32> = Stack::new(rt.alloc());
    stack.push(7)?;
    stack.push(8)?;
    assert!(rt; stack.copy()? == stack);
    may_be_shared(&stack);
    let other: Stack<u32> = Stack::new(stack.alloc());
    assert!(rt; other != stack);
    assert!(rt; Text::from_text(rt.alloc(), "add")?.as_slice() == b"add".as_slice());
    let boxed = Boxed::new(rt.alloc(), 4u32)?;
    assert!(rt; boxed.copy()?.into_inner() == 4);
    Ok(())
}

#[test]
fn stacks_turn(rt: HostRuntime) -> Result<(), Fail> {
    let mut stack: Stack<u32> = Stack::new(rt.alloc());
    for n in 0..4 {
        stack.push(n)?;
    }
    assert!(rt; stack.len() == 4);
    stack.roll(3, 1);
    assert!(rt; stack.get(0) == Some(&2));
    assert!(rt; stack.len() == 4);
    stack.exchange();
    assert!(rt; stack.get(1) == Some(&2));
    assert!(rt; stack.len() == 4);
    stack.replace(9);
    assert!(rt; stack.get(0) == Some(&9));
    assert!(rt; stack.len() == 4);
    stack.shrink(3);
    assert!(rt; stack.get(1).is_none());
    assert!(rt; stack.pop().is_some());
    assert!(rt; stack.is_empty());
    Ok(())
}
