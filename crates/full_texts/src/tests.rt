use crate::simple::push_simple;
use crate::strings::push_escaped;
use ps_kinds::{Access, Cell, Kind, Name, NoMemory, Object, Op, SaveName, Space, Text, places};
use std::alloc::Global;

fn simple(alloc: Global, exec: bool, kind: Kind) -> Result<Text, NoMemory> {
    let mut text = Text::new(alloc);
    let object = Object {
        kind,
        exec,
        access: Access::Unlimited,
    };
    push_simple(&mut text, &object)?;
    Ok(text)
}

fn escaped(alloc: Global, bytes: &[u8]) -> Result<Text, NoMemory> {
    let mut text = Text::new(alloc);
    for byte in bytes {
        push_escaped(&mut text, *byte)?;
    }
    Ok(text)
}

#[test]
fn objects_without_looks(rt: HostRuntime) -> Result<(), NoMemory> {
    let alloc = rt.alloc();
    let cell = Cell {
        section: 3,
        count: 1,
        space: Space::Local,
    };
    let save = SaveName {
        section: 3,
        count: 1,
    };
    for (exec, text) in [(false, "/foo"), (true, "foo")] {
        let name = Name::from_bytes(alloc, b"foo")?;
        let told = simple(alloc, exec, Kind::Name(name))?;
        assert_eq!(rt; told.as_slice(), text.as_bytes());
    }
    for (kind, text) in [
        (Kind::Integer(-12), "-12"),
        (Kind::Boolean(true), "true"),
        (Kind::Null, "null"),
        (Kind::Operator(Op::at(places::ADD)), "--add--"),
        (Kind::Mark, "-mark-"),
        (Kind::Dict(cell), "-dict-"),
        (Kind::File { section: 3 }, "-file-"),
        (Kind::Save(save), "-save-"),
        (Kind::FontId(cell), "-font-"),
    ] {
        let told = simple(alloc, true, kind)?;
        assert_eq!(rt; told.as_slice(), text.as_bytes());
    }
    Ok(())
}

#[test]
fn bytes_of_strings(rt: HostRuntime) -> Result<(), NoMemory> {
    let told = escaped(rt.alloc(), b"a(b)\\ ~\x00\x1f\x7f\xff")?;
    assert_eq!(rt;
        told.as_slice(),
        b"a\\(b\\)\\\\ ~\\000\\037\\177\\377".as_slice()
    );
    Ok(())
}
