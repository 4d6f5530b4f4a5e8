use crate::{Dict, Seat};
use copy_lists::Duplicate;
use ps_objects::{Access, Key, Kind, Name, Object};
use std::test::Fail;
use vm_mem::hash_of;

fn number(value: i32) -> Option<Object> {
    Some(Object {
        kind: Kind::Integer(value),
        exec: false,
        access: Access::Unlimited,
    })
}

#[test]
fn keys_are_found_among_many(rt: HostRuntime) -> Result<(), Fail> {
    let mut dict = Dict::new(rt.alloc());
    for n in 0..100 {
        let seat = Seat {
            number: 7,
            object: number(n),
        };
        let key = Key::Integer(n);
        let hash = hash_of(&key);
        if dict.get(&key, hash).is_none() {
            dict.insert(key, hash, seat)?;
        }
    }
    let other = Key::Integer(-40);
    assert!(rt; dict.get(&other, hash_of(&other)).is_none());
    let name = Key::Name(Name::from_bytes(rt.alloc(), b"moveto")?);
    let hash = hash_of(&name);
    assert!(rt; dict.get(&name, hash).is_none());
    dict.replace(&name, hash, number(5));
    assert!(rt; dict.get(&name, hash).is_none());
    let key = Key::Integer(40);
    dict.replace(&key, hash_of(&key), None);
    let copy = dict.duplicate()?;
    match copy.get(&key, hash_of(&key)) {
        Some(seat) => {
            assert!(rt; seat.number == 7);
            assert!(rt; seat.object.is_none());
        }
        None => assert!(rt; false),
    }
    assert!(rt; copy.as_slice().len() == 100);
    Ok(())
}
