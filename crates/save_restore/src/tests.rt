use super::*;
use ps_kinds::{Access, Cell, Interval, Kind, Object, SaveName, Space};
use std::test::Fail;

const SAVE: SaveName = SaveName {
    section: 2,
    count: 5,
};

fn object(kind: Kind) -> Object {
    Object {
        kind,
        exec: false,
        access: Access::Unlimited,
    }
}

/// A string of a cell.
fn string(section: u32, count: u32, space: Space) -> Object {
    let cell = Cell {
        section,
        count,
        space,
    };
    object(Kind::Str(Interval {
        cell,
        start: 1,
        len: 2,
    }))
}

#[test]
fn local_objects_are_newer(rt: HostRuntime) -> Result<(), Fail> {
    assert!(rt; newer(&string(2, 6, Space::Local), SAVE));
    assert!(rt; newer(&string(3, 0, Space::Local), SAVE));
    assert!(rt; !newer(&string(2, 4, Space::Local), SAVE));
    assert!(rt; !newer(&string(1, 9, Space::Local), SAVE));
    assert!(rt; !newer(&string(2, 6, Space::Global), SAVE));
    let dict = Cell {
        section: 2,
        count: 7,
        space: Space::Local,
    };
    assert!(rt; newer(&object(Kind::Dict(dict)), SAVE));
    assert!(rt; !newer(&object(Kind::FontId(dict)), SAVE));
    assert!(rt; !newer(&object(Kind::Save(SAVE)), SAVE));
    assert!(rt; !newer(&object(Kind::Integer(7)), SAVE));
    save_restore_lawful();
    Ok(())
}
