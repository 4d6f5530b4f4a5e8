//! The device colour spaces (section 4.8.2 of the language manual).
#![tactic(auto, using(ps_operator::proofs::Then::answer_then, ps_operator::proofs::Standing::object_stands, ps_operator::proofs::Naming::next_free))]

ghost use Rattle.std.specs.Prelude.{◌≡◌, true, OnOk, IfOk};
ghost use Rattle.ps_meaning.specs.Ready.{Ready};
ghost use Rattle.ps_operator.specs.Owes.{Does, Yields};
ghost use Rattle.ps_operator.specs.Registers.{literal};
ghost use Rattle.ps_operator.specs.Standing.{is_named};
ghost use Rattle.ps_objects.specs.declared.object.Kind.TheVariants as kind;
ghost use Rattle.colour_ops.specs.Spaces as spec;

use crate::colours::{full, none};
use crate::glyphs::settable;
use ps_kinds::{
    Colour, ErrorName, Interval, Kind, Name, NoMemory, Object, Operands, Refusal, State,
};
use ps_operator::{Mem, literal, look_item, make_array, next_cell, store_item, unit_room};
use std::alloc::Global;

/// The name of a colour's space.
fn space_of(colour: Colour) -> &'static [u8]
    ensures { result.now ≡ spec.space_of colour }
{
    match colour {
        Colour::Gray(_) => b"DeviceGray",
        Colour::Rgb(_, _, _) => b"DeviceRGB",
        Colour::Cmyk(_, _, _, _) => b"DeviceCMYK",
    }
}

/// The first colour of the space with this name, which is black: rangecheck.
fn first_colour(name: &[u8]) -> Result<Colour, ErrorName>
    ensures { result ≡ spec.first_colour name.now }
{
    if name == b"DeviceGray".as_slice() {
        Ok(Colour::Gray(none()))
    } else if name == b"DeviceRGB".as_slice() {
        Ok(Colour::Rgb(none(), none(), none()))
    } else if name == b"DeviceCMYK".as_slice() {
        Ok(Colour::Cmyk(none(), none(), none(), full()))
    } else {
        Err(ErrorName::RangeCheck)
    }
}

/// The same of an item of an array: rangecheck.
fn item_colour(kind: &Kind) -> Result<Colour, ErrorName>
    ensures { result ≡ spec.item_colour kind.now }
{
    match kind {
        Kind::Name(name) => first_colour(name.as_slice()),
        _ => Err(ErrorName::RangeCheck),
    }
}

/// Whether an object can tell a space: typecheck.
fn is_space(kind: &Kind) -> Result<(), ErrorName>
    ensures { result ≡ spec.is_space kind.now }
{
    match kind {
        Kind::Name(_) | Kind::Array { .. } => Ok(()),
        _ => Err(ErrorName::TypeCheck),
    }
}

/// Whether an array has one item: rangecheck.
fn one_item(array: Interval) -> Result<(), ErrorName>
    ensures { result ≡ spec.one_item array }
{
    if array.len == 1 {
        Ok(())
    } else {
        Err(ErrorName::RangeCheck)
    }
}

/// The first colour of the space that an object tells: invalidaccess, rangecheck.
fn colour_in<M: Mem>(object: &Object, mem: &mut M) -> Result<Colour, Refusal>
    requires { is_named (M.log mem.old).view object.now.kind ≡ true }
    ensures view { OnOk result ((M.log mem.new).view ≡ (M.log mem.old).view) }
    ensures told { Yields (spec.colour_in object.now.access object.now.kind) (M.log mem.old)
        result (M.log mem.new) }
{
    match &object.kind {
        Kind::Name(name) => Ok(first_colour(name.as_slice())?),
        Kind::Array { interval, .. } => {
            object.access.readable()?;
            one_item(*interval)?;
            let item = look_item(mem, *interval, 0)?;
            Ok(item_colour(&item.kind)?)
        }
        _ => Err(Refusal::Error(ErrorName::TypeCheck)),
    }
}

pub(crate) fn setcolorspace<M: Mem>(state: &mut State, mem: &mut M) -> Result<(), Refusal>
    requires { Ready state.old (M.log mem.old).view }
    ensures { Does spec.setcolorspace state.old (M.log mem.old) result state.new (M.log mem.new) }
{
    let operands = &mut state.regs.operands;
    operands.need(1)?;
    let object = operands.object(0)?;
    is_space(&object.kind)?;
    settable(&state.frames)?;
    let colour = colour_in(object, mem)?;
    operands.shrink(1);
    state.regs.state.colour = colour;
    Ok(())
}

/// The name of a colour's space, as an object.
fn space_name(alloc: Global, colour: Colour) -> Result<Object, NoMemory>
    ensures { IfOk result (λ x. x ≡ literal (kind.Name (spec.space_of colour))) }
{
    Ok(literal(Kind::Name(Name::from_bytes(alloc, space_of(colour))?)))
}

/// The array of the next cell, with one item.
fn next_one(state: &State) -> Interval
    ensures { result ≡ spec.next_one state.now }
{
    Interval {
        cell: next_cell(state),
        start: 0,
        len: 1,
    }
}

pub(crate) fn currentcolorspace<M: Mem>(state: &mut State, mem: &mut M) -> Result<(), Refusal>
    requires { Ready state.old (M.log mem.old).view }
    ensures { Does spec.currentcolorspace state.old (M.log mem.old)
        result state.new (M.log mem.new) }
{
    let array = next_one(state);
    let operands = &mut state.regs.operands;
    operands.room(1)?;
    unit_room(state.kind, state.units, 1)?;
    let name = space_name(operands.alloc(), state.regs.state.colour)?;
    make_array(mem, array.cell, 1)?;
    store_item(mem, array, 0, name)?;
    state.count += 1;
    state.units += 1;
    operands.push(literal(Kind::Array {
        interval: array,
        packed: false,
    }))?;
    Ok(())
}
