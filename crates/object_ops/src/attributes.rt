//! Types and attributes of objects.
ghost use Rattle.std.specs.Prelude.{◌≡◌, ◌≤◌, ◌∷◌, length, drop, OnOk, IfOk};
ghost use Rattle.ps_operator.specs.Owes.{DoesAlone};
ghost use Rattle.object_ops.specs.Attributes as spec;

use ps_kinds::{Access, Kind, Name, NoMemory, Object, Operands, Refusal, State};
use ps_operator::push_result;

/// The name of a type.
fn type_name(kind: &Kind) -> &'static [u8]
    ensures { result.now ≡ spec.type_name kind.now }
{
    match kind {
        Kind::Integer(_) => b"integertype",
        Kind::Real(_) => b"realtype",
        Kind::Boolean(_) => b"booleantype",
        Kind::Null => b"nulltype",
        Kind::Mark => b"marktype",
        Kind::Name(_) => b"nametype",
        Kind::Operator(_) => b"operatortype",
        Kind::Str(_) => b"stringtype",
        Kind::Array { packed, .. } => {
            if *packed {
                b"packedarraytype"
            } else {
                b"arraytype"
            }
        }
        Kind::Dict(_) => b"dicttype",
        Kind::File { .. } | Kind::Filter { .. } => b"filetype",
        Kind::Save(_) => b"savetype",
        Kind::FontId(_) => b"fonttype",
    }
}

pub(crate) fn type_(state: &mut State) -> Result<(), Refusal>
    ensures { DoesAlone spec.type_ state.old result state.new }
{
    let operands = &mut state.regs.operands;
    operands.need(1)?;
    let name = type_name(&operands.object(0)?.kind);
    let name = Name::from_bytes(operands.alloc(), name)?;
    operands.shrink(1);
    operands.push(Object {
        kind: Kind::Name(name),
        exec: true,
        access: Access::Unlimited,
    })?;
    Ok(())
}

/// The same object with an attribute.
fn attributed(object: &Object, exec: bool) -> Result<Object, NoMemory>
    ensures { IfOk result (λ x. x ≡ spec.attributed exec object.now) }
{
    let mut object = object.copy()?;
    object.exec = exec;
    Ok(object)
}

pub(crate) fn cvlit(state: &mut State) -> Result<(), Refusal>
    ensures { DoesAlone spec.cvlit state.old result state.new }
{
    let operands = &mut state.regs.operands;
    operands.need(1)?;
    let object = attributed(operands.object(0)?, false)?;
    operands.shrink(1);
    operands.push(object)?;
    Ok(())
}

pub(crate) fn cvx(state: &mut State) -> Result<(), Refusal>
    ensures { DoesAlone spec.cvx state.old result state.new }
{
    let operands = &mut state.regs.operands;
    operands.need(1)?;
    let object = attributed(operands.object(0)?, true)?;
    operands.shrink(1);
    operands.push(object)?;
    Ok(())
}

pub(crate) fn xcheck(state: &mut State) -> Result<(), Refusal>
    ensures { DoesAlone spec.xcheck state.old result state.new }
{
    let operands = &mut state.regs.operands;
    operands.need(1)?;
    let exec = operands.object(0)?.exec;
    push_result(operands, 1, Kind::Boolean(exec))?;
    Ok(())
}
