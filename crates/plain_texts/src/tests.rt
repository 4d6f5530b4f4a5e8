use crate::plain_text;
use ps_kinds::{
    Access, Cell, Interval, Kind, Name, NoMemory, Object, Op, Real, SaveName, Space, places,
};
use std::alloc::Global;

fn literal(kind: Kind) -> Object {
    Object {
        kind,
        exec: false,
        access: Access::Unlimited,
    }
}

fn cell() -> Cell {
    Cell {
        section: 3,
        count: 1,
        space: Space::Local,
    }
}

fn part() -> Interval {
    Interval {
        cell: cell(),
        start: 0,
        len: 3,
    }
}

#[test]
fn integers(rt: HostRuntime) -> Result<(), NoMemory> {
    let alloc = rt.alloc();
    for (n, text) in [
        (0, "0"),
        (7, "7"),
        (-12, "-12"),
        (2_147_483_647, "2147483647"),
        (-2_147_483_648, "-2147483648"),
    ] {
        let told = plain_text(alloc, &literal(Kind::Integer(n)), b"")?;
        assert_eq!(rt; told.as_slice(), text.as_bytes());
    }
    Ok(())
}

/// Counts of 2^-24 and the texts that the rule of six digits gives, reckoned apart.
#[test]
fn reals(rt: HostRuntime) -> Result<(), NoMemory> {
    let alloc = rt.alloc();
    for (count, text) in [
        (0, "0.0"),
        (16_777_216, "1.0"),
        (-16_777_216, "-1.0"),
        (8_388_608, "0.5"),
        (5_592_405, "0.333333"),
        (-5_592_406, "-0.333333"),
        (8, "0.0"),
        (9, "0.000001"),
        (-8, "0.0"),
        (-9, "-0.000001"),
        (16_777_215, "1.0"),
        (16_777, "0.001"),
        (1_681_915_904, "100.25"),
        (202_375_168, "12.0625"),
        (9_223_372_036_854_775_807, "549755813888.0"),
        (-9_223_372_036_854_775_808, "-549755813888.0"),
    ] {
        let told = plain_text(alloc, &literal(Kind::Real(Real { count })), b"")?;
        assert_eq!(rt; told.as_slice(), text.as_bytes());
    }
    Ok(())
}

fn told(alloc: Global, kind: Kind) -> Result<ps_kinds::Text, NoMemory> {
    plain_text(alloc, &literal(kind), b"abc")
}

#[test]
fn other_types(rt: HostRuntime) -> Result<(), NoMemory> {
    let alloc = rt.alloc();
    let none = b"--nostringval--".as_slice();
    let name = Name::from_bytes(alloc, b"foo")?;
    let save = SaveName {
        section: 3,
        count: 1,
    };
    assert_eq!(rt;
        told(alloc, Kind::Boolean(true))?.as_slice(),
        b"true".as_slice()
    );
    assert_eq!(rt;
        told(alloc, Kind::Boolean(false))?.as_slice(),
        b"false".as_slice()
    );
    assert_eq!(rt;
        told(alloc, Kind::Str(part()))?.as_slice(),
        b"abc".as_slice()
    );
    assert_eq!(rt;
        told(alloc, Kind::Name(name))?.as_slice(),
        b"foo".as_slice()
    );
    assert_eq!(rt;
        told(alloc, Kind::Operator(Op::at(places::TWO_EQUALS_SIGNS)))?.as_slice(),
        b"==".as_slice()
    );
    assert_eq!(rt; told(alloc, Kind::Null)?.as_slice(), none);
    assert_eq!(rt; told(alloc, Kind::Mark)?.as_slice(), none);
    assert_eq!(rt; told(alloc, Kind::Dict(cell()))?.as_slice(), none);
    assert_eq!(rt; told(alloc, Kind::Save(save))?.as_slice(), none);
    assert_eq!(rt; told(alloc, Kind::FontId(cell()))?.as_slice(), none);
    assert_eq!(rt; told(alloc, Kind::File { section: 3 })?.as_slice(), none);
    let array = Kind::Array {
        interval: part(),
        packed: false,
    };
    assert_eq!(rt; told(alloc, array)?.as_slice(), none);
    Ok(())
}
