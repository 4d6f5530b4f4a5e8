use crate::{globals, locals, strings};
use ps_objects::{Cell, Key, Kind, Loc, Name, Object, Space, Value};
use std::test::Fail;

const SYSTEM_DICT: Cell = Cell {
    section: 0,
    count: 0,
    space: Space::Global,
};

fn is_operator(value: &Value) -> bool {
    match value {
        Value::Object(
            Object {
                kind: Kind::Operator(_),
                exec,
                ..
            },
        ) => *exec,
        _ => false,
    }
}

#[test]
fn the_start_has_its_cells(rt: HostRuntime) -> Result<(), Fail> {
    assert!(rt; locals(rt.alloc())?.len() == 7);
    assert!(rt; strings(rt.alloc())?.len() == 2);
    let cells = globals(rt.alloc())?;
    assert!(rt; cells.len() == 4);
    let key = Key::Name(Name::from_bytes(rt.alloc(), b"dup")?);
    let at = Loc::Entry {
        dict: SYSTEM_DICT,
        key,
    };
    match cells.get(&SYSTEM_DICT) {
        Some(system) => assert!(rt; is_operator(&system.value(&at)?)),
        None => assert!(rt; false),
    }
    Ok(())
}
