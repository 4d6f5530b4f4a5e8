use super::*;
use std::test::Fail;

#[test]
fn operators_have_names(rt: HostRuntime) -> Result<(), Fail> {
    let add = Op::from_index(12).ok_or("no operator")?;
    assert!(rt; op_name(add) == b"add".as_slice());
    assert!(rt; op_name(Op::at(places::PATHFORALL)) == b"pathforall".as_slice());
    let last = Op::default_entry(ErrorName::VmError);
    assert!(rt; last.index() == 238);
    assert!(rt; op_name(last) == ErrorName::VmError.as_bytes());
    assert!(rt; Op::from_index(places::OPERATOR_COUNT).is_none());
    places::places_are_in_order();
    Ok(())
}
