use super::*;
use std::cmp::Ordering;
use std::test::Fail;

fn name(rt: &HostRuntime, bytes: &[u8]) -> Result<Name, Refusal> {
    Name::within_limit(rt.alloc(), bytes)
}

fn literal(kind: Kind) -> Object {
    Object {
        kind,
        exec: false,
        access: Access::Unlimited,
    }
}

const CELL: Cell = Cell {
    section: 2,
    count: 7,
    space: Space::Local,
};

#[test]
fn copies_are_equal(rt: HostRuntime) -> Result<(), Fail> {
    let array = Kind::Array {
        interval: Interval {
            cell: CELL,
            start: 1,
            len: 3,
        },
        packed: true,
    };
    let object = literal(array);
    assert!(rt; object.copy()? == object);
    assert!(rt; object.kind.cell() == Some(CELL));
    let mut keys = Keys::new(rt.alloc());
    keys.push(Key::Name(name(&rt, b"a name of more than sixteen bytes")?))?;
    keys.push(Key::Mark)?;
    assert!(rt; keys.copy()? == keys);
    assert!(rt; keys.len() == 2);
    let place = Loc::Entry {
        dict: CELL,
        key: Key::Boolean(true),
    };
    assert!(rt; place.copy()? == place);
    let value = Value::Paper(Paper::blank(rt.alloc(), 3, 2)?);
    assert!(rt; value.copy()? == value);
    let mut operands = Objects::new(rt.alloc());
    operands.push(literal(Kind::Null))?;
    operands.push(object)?;
    assert!(rt; operands.copy()? == operands);
    Ok(())
}

#[test]
fn keys_are_in_their_order(rt: HostRuntime) -> Result<(), Fail> {
    let one = Real { count: ONE };
    assert!(rt; Kind::Real(one).key_form()? == KeyForm::Key(Key::Integer(1)));
    let mut keys = Keys::new(rt.alloc());
    keys.push(Key::Name(name(&rt, b"abc")?))?;
    keys.push(Key::Name(name(&rt, b"abd")?))?;
    keys.push(Key::Integer(-3))?;
    keys.push(Key::Integer(2))?;
    keys.push(Key::Real(Real { count: 1 }))?;
    keys.push(Key::Boolean(false))?;
    keys.push(Key::Boolean(true))?;
    keys.push(Key::Operator(Op::default_entry(ErrorName::Undefined)))?;
    keys.push(Key::Dict(CELL))?;
    keys.push(Key::Array {
        interval: Interval {
            cell: CELL,
            start: 0,
            len: 9,
        },
        packed: false,
    })?;
    keys.push(Key::File {
        section: 1,
        layer: 4,
    })?;
    keys.push(Key::File {
        section: 2,
        layer: 0,
    })?;
    keys.push(Key::Save(SaveName {
        section: 1,
        count: 0,
    }))?;
    keys.push(Key::FontId(CELL))?;
    keys.push(Key::Mark)?;
    let keys = keys.into_vec();
    assert!(rt; keys.as_slice().windows(2).all(|pair| pair[0] < pair[1]));
    assert!(rt; Key::Mark.compare(&Key::FontId(CELL)) == Ordering::Greater);
    let save = SaveName {
        section: 2,
        count: 6,
    };
    assert!(rt; CELL.comes_after(save));
    assert!(rt; CELL.is_newer_than(save));
    let global = Cell {
        section: 2,
        count: 7,
        space: Space::Global,
    };
    assert!(rt; !global.is_newer_than(save));
    Ok(())
}

/// Published hashes of these bytes.
#[test]
fn names_have_hashes(rt: HostRuntime) -> Result<(), Fail> {
    assert!(rt; name_hash(b"") == 0xcbf29ce484222325);
    assert!(rt; name(&rt, b"a")?.hash() == 0xaf63dc4c8601ec8c);
    assert!(rt; name(&rt, b"foobar")?.hash() == 0x85944171f73967e8);
    Ok(())
}

#[test]
fn operands_are_read(rt: HostRuntime) -> Result<(), Fail> {
    let mut operands = Objects::new(rt.alloc());
    for n in 0..4 {
        operands.push(literal(Kind::Integer(n)))?;
    }
    assert!(rt; operands.integer(0) == Ok(3));
    assert!(rt; operands.boolean(1) == Err(ErrorName::TypeCheck));
    assert!(rt; operands.need(5) == Err(ErrorName::StackUnderflow));
    assert!(rt; operands.room(4996) == Ok(()));
    assert!(rt; operands.room(4997) == Err(ErrorName::StackOverflow));
    assert!(rt; dict_room(&DictStack::new(rt.alloc())) == Ok(()));
    Ok(())
}
