use crate::{Before, Bytes, Content, copy_map, next_in, remove_bytes, remove_cell, undo_in_cell};
use ps_objects::{Access, Cell, Duplicate, Key, Kind, Loc, Object, Shape, Space, Value};
use std::collections::BTreeMap;
use std::test::Fail;

fn cell(count: u32) -> Cell {
    Cell {
        section: 1,
        count,
        space: Space::Local,
    }
}

fn number(value: i32) -> Value {
    Value::Object(Object {
        kind: Kind::Integer(value),
        exec: false,
        access: Access::Unlimited,
    })
}

fn entry(key: i32) -> Loc {
    Loc::Entry {
        dict: cell(1),
        key: Key::Integer(key),
    }
}

fn item(at: u32) -> Loc {
    Loc::Item { array: cell(2), at }
}

#[test]
fn contents_hold_what_was_put(rt: HostRuntime) -> Result<(), Fail> {
    let mut dictionary = Content::fresh(rt.alloc(), Shape::Dict { capacity: 3 })?;
    dictionary.put(&entry(4), number(40))?;
    dictionary.put(&entry(2), number(20))?;
    dictionary.put(&entry(4), Value::Absent)?;
    assert!(rt; dictionary.holds(&entry(2), &number(20)));
    assert!(rt; dictionary.value(&entry(4))? == Value::Absent);
    assert!(rt; dictionary.shape() == Shape::Dict { capacity: 3 });

    let before = dictionary.before(&entry(2), &number(21))?;
    dictionary.put(&entry(2), number(21))?;
    dictionary.undo(before);
    assert!(rt; dictionary.holds(&entry(2), &number(20)));
    dictionary.undo_place(&entry(2), number(22));
    assert!(rt; dictionary.copy()?.holds(&entry(2), &number(22)));

    let mut array = Content::fresh(rt.alloc(), Shape::Array { len: 2 })?;
    array.put(&item(1), number(5))?;
    array.put(&item(2), number(6))?;
    assert!(rt; array.holds(&item(1), &number(5)));
    assert!(rt; array.holds(&item(2), &Value::Absent));
    let empty = Content::dictionary(rt.alloc(), 1, Access::ReadOnly, BTreeMap::new(rt.alloc()));
    assert!(rt;
        empty.holds(
            &Loc::Access { dict: cell(1) },
            &Value::Access(Access::ReadOnly)
        )
    );
    Ok(())
}

#[test]
fn maps_of_cells_are_copied_and_followed(rt: HostRuntime) -> Result<(), Fail> {
    let mut cells = BTreeMap::new(rt.alloc());
    cells.insert(
        cell(1),
        Content::fresh(rt.alloc(), Shape::Dict { capacity: 0 })?,
    )?;
    cells.insert(cell(3), Content::fresh(rt.alloc(), Shape::Str { len: 4 })?)?;
    let mut copy = copy_map(rt.alloc(), &cells)?;
    let next = next_in(&copy, Space::Local, Some(cell(1)));
    assert!(rt; next == Some((cell(3), Shape::Str { len: 4 })));
    assert!(rt; next_in(&copy, Space::Local, Some(cell(3))).is_none());
    undo_in_cell(&mut copy, cell(1), Before::Same);
    remove_cell(&mut copy, cell(3));
    assert!(rt; copy.len() == 1);

    let mut bytes = Bytes::zeros(rt.alloc(), 2)?;
    bytes.set(1, 7);
    assert!(rt; bytes.get(1) == Some(7));
    assert!(rt; bytes.get(2).is_none());
    assert!(rt; bytes.copy()?.get(1) == Some(7));
    let mut strings = BTreeMap::new(rt.alloc());
    strings.insert(cell(3), Bytes::from_slice(rt.alloc(), b"ab")?.duplicate()?)?;
    remove_bytes(&mut strings, cell(3));
    assert!(rt; strings.is_empty());
    Ok(())
}
