//! Access of composite objects, and where they lie.
#![tactic(auto, using(crate::proofs::Standing::holder_stands))]

ghost use Rattle.std.specs.Prelude.{◌≡◌, IfOk};
ghost use Rattle.ps_meaning.specs.Ready.{Ready};
ghost use Rattle.ps_operator.specs.Owes.{Does, DoesAlone};
ghost use Rattle.ps_operator.specs.Budgets.{is_local};
ghost use Rattle.object_ops.specs.Accesses as spec;

use ps_kinds::{Access, Cell, ErrorName, Kind, NoMemory, Object, Operands, Refusal, Space, State};
use ps_operator::{Mem, look_access, push_result, store_access};

/// Whether an object has an access of its own: typecheck.
fn own_access(kind: &Kind) -> Result<(), ErrorName>
    ensures { result ≡ spec.own_access kind.now }
{
    match kind {
        Kind::Str(_) | Kind::Array { .. } | Kind::File { .. } | Kind::Filter { .. } => Ok(()),
        _ => Err(ErrorName::TypeCheck),
    }
}

/// In which dictionary's cell the access of an object lies, or none where it is its own: typecheck.
fn access_holder(kind: &Kind) -> Result<Option<Cell>, ErrorName>
    ensures { result ≡ spec.access_holder kind.now }
{
    match kind {
        Kind::Dict(cell) => Ok(Some(*cell)),
        Kind::Str(_) | Kind::Array { .. } | Kind::File { .. } | Kind::Filter { .. } => Ok(None),
        _ => Err(ErrorName::TypeCheck),
    }
}

/// The same object with an access.
fn guarded(object: &Object, access: Access) -> Result<Object, NoMemory>
    ensures { IfOk result (λ x. x ≡ spec.guarded access object.now) }
{
    let mut object = object.copy()?;
    object.access = access;
    Ok(object)
}

pub(crate) fn executeonly(state: &mut State) -> Result<(), Refusal>
    ensures { DoesAlone spec.executeonly state.old result state.new }
{
    let operands = &mut state.regs.operands;
    operands.need(1)?;
    let object = operands.object(0)?;
    own_access(&object.kind)?;
    object.access.runnable()?;
    let object = guarded(object, Access::ExecuteOnly)?;
    operands.shrink(1);
    operands.push(object)?;
    Ok(())
}

pub(crate) fn readonly<M: Mem>(state: &mut State, mem: &mut M) -> Result<(), Refusal>
    requires { Ready state.old (M.log mem.old).view }
    ensures { Does spec.readonly state.old (M.log mem.old) result state.new (M.log mem.new) }
{
    let operands = &mut state.regs.operands;
    operands.need(1)?;
    let object = operands.object(0)?;
    match access_holder(&object.kind)? {
        Some(dict) => {
            look_access(mem, dict)?.readable()?;
            store_access(mem, dict, Access::ReadOnly)?;
        }
        None => {
            object.access.readable()?;
            let object = guarded(object, Access::ReadOnly)?;
            operands.shrink(1);
            operands.push(object)?;
        }
    }
    Ok(())
}

pub(crate) fn noaccess<M: Mem>(state: &mut State, mem: &mut M) -> Result<(), Refusal>
    requires { Ready state.old (M.log mem.old).view }
    ensures { Does spec.noaccess state.old (M.log mem.old) result state.new (M.log mem.new) }
{
    let operands = &mut state.regs.operands;
    operands.need(1)?;
    let object = operands.object(0)?;
    match access_holder(&object.kind)? {
        Some(dict) => store_access(mem, dict, Access::NoAccess)?,
        None => {
            let object = guarded(object, Access::NoAccess)?;
            operands.shrink(1);
            operands.push(object)?;
        }
    }
    Ok(())
}

fn lets_read(access: Access) -> bool
    ensures { result ≡ spec.lets_read access }
{
    matches!(access, Access::Unlimited | Access::ReadOnly)
}

fn lets_write(access: Access) -> bool
    ensures { result ≡ spec.lets_write access }
{
    matches!(access, Access::Unlimited)
}

pub(crate) fn rcheck<M: Mem>(state: &mut State, mem: &mut M) -> Result<(), Refusal>
    requires { Ready state.old (M.log mem.old).view }
    ensures { Does spec.rcheck state.old (M.log mem.old) result state.new (M.log mem.new) }
{
    let operands = &mut state.regs.operands;
    operands.need(1)?;
    let object = operands.object(0)?;
    let access = match access_holder(&object.kind)? {
        Some(dict) => look_access(mem, dict)?,
        None => object.access,
    };
    push_result(operands, 1, Kind::Boolean(lets_read(access)))?;
    Ok(())
}

pub(crate) fn wcheck<M: Mem>(state: &mut State, mem: &mut M) -> Result<(), Refusal>
    requires { Ready state.old (M.log mem.old).view }
    ensures { Does spec.wcheck state.old (M.log mem.old) result state.new (M.log mem.new) }
{
    let operands = &mut state.regs.operands;
    operands.need(1)?;
    let object = operands.object(0)?;
    let access = match access_holder(&object.kind)? {
        Some(dict) => look_access(mem, dict)?,
        None => object.access,
    };
    push_result(operands, 1, Kind::Boolean(lets_write(access)))?;
    Ok(())
}

fn is_local(cell: Option<Cell>) -> bool
    ensures { result ≡ is_local cell }
{
    match cell {
        Some(cell) => cell.space == Space::Local,
        None => false,
    }
}

pub(crate) fn gcheck(state: &mut State) -> Result<(), Refusal>
    ensures { DoesAlone spec.gcheck state.old result state.new }
{
    let operands = &mut state.regs.operands;
    operands.need(1)?;
    let cell = operands.object(0)?.kind.cell();
    push_result(operands, 1, Kind::Boolean(!is_local(cell)))?;
    Ok(())
}
