//! Objects as text, as the format's description has them.
use crate::push_object;
use copy_lists::{NoMemory, Text};
use ps_kinds::{Access, Cell, Interval, Kind, Name, Object, Op, Real, SaveName, Space, places};
use std::alloc::Global;

fn cell() -> Cell {
    Cell {
        section: 3,
        count: 1,
        space: Space::Local,
    }
}

fn part() -> Interval {
    Interval {
        cell: cell(),
        start: 2,
        len: 5,
    }
}

fn told(alloc: Global, kind: Kind, exec: bool, access: Access) -> Result<Text, NoMemory> {
    let mut text = Text::new(alloc);
    push_object(&mut text, &Object { kind, exec, access })?;
    Ok(text)
}

fn literal(alloc: Global, kind: Kind) -> Result<Text, NoMemory> {
    told(alloc, kind, false, Access::Unlimited)
}

#[test]
fn objects_are_told(rt: HostRuntime) -> Result<(), NoMemory> {
    let alloc = rt.alloc();
    let name = Name::from_bytes(alloc, b"a b#!")?;
    let save = SaveName {
        section: 3,
        count: 1,
    };
    let packed = Kind::Array {
        interval: part(),
        packed: true,
    };
    let array = Kind::Array {
        interval: part(),
        packed: false,
    };
    assert_eq!(rt;
        literal(alloc, Kind::Integer(-7))?.as_slice(),
        b"-7".as_slice()
    );
    assert_eq!(rt;
        literal(alloc, Kind::Real(Real { count: -16_777_216 }))?.as_slice(),
        b"r-16777216".as_slice()
    );
    assert_eq!(rt;
        literal(alloc, Kind::Boolean(true))?.as_slice(),
        b"true".as_slice()
    );
    assert_eq!(rt; literal(alloc, Kind::Null)?.as_slice(), b"null".as_slice());
    assert_eq!(rt; literal(alloc, Kind::Mark)?.as_slice(), b"mark".as_slice());
    assert_eq!(rt;
        told(alloc, Kind::Name(name), true, Access::Unlimited)?.as_slice(),
        b"/a#20b#23#21!".as_slice()
    );
    assert_eq!(rt;
        told(
            alloc,
            Kind::Operator(Op::at(places::TWO_EQUALS_SIGNS)),
            true,
            Access::Unlimited
        )?
        .as_slice(),
        b"@==".as_slice()
    );
    assert_eq!(rt;
        told(alloc, Kind::Str(part()), false, Access::ReadOnly)?.as_slice(),
        b"s3.1[2:5].r".as_slice()
    );
    assert_eq!(rt;
        told(alloc, array, true, Access::ExecuteOnly)?.as_slice(),
        b"a3.1[2:5]!.e".as_slice()
    );
    assert_eq!(rt;
        told(alloc, packed, false, Access::NoAccess)?.as_slice(),
        b"p3.1[2:5].n".as_slice()
    );
    assert_eq!(rt;
        literal(alloc, Kind::Dict(cell()))?.as_slice(),
        b"d3.1".as_slice()
    );
    assert_eq!(rt;
        literal(alloc, Kind::File { section: 3 })?.as_slice(),
        b"f3".as_slice()
    );
    assert_eq!(rt;
        literal(
            alloc,
            Kind::Filter {
                section: 3,
                layer: 2
            }
        )?
        .as_slice(),
        b"f3.2".as_slice()
    );
    assert_eq!(rt;
        literal(alloc, Kind::Save(save))?.as_slice(),
        b"v3.1".as_slice()
    );
    assert_eq!(rt;
        literal(alloc, Kind::FontId(cell()))?.as_slice(),
        b"i3.1".as_slice()
    );
    Ok(())
}
