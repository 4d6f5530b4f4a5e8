//! The current transformation matrix (section 4.3.2 of the language manual).
#![tactic(auto, using(ps_operator::proofs::Then::answer_then, ps_operator::proofs::Standing::array_stands))]

ghost use Rattle.std.specs.Prelude.{◌≡◌};
ghost use Rattle.ps_meaning.specs.Ready.{Ready};
ghost use Rattle.ps_operator.specs.Owes.{Does, DoesAlone};
ghost use Rattle.mat_ops.specs.Current as spec;

use crate::matrices::{look_matrix, six};
use ps_fixed::mat_mul;
use ps_kinds::{ErrorName, GState, Matrix, Operands, Refusal, State};
use ps_operator::Mem;
use ps_start::default_matrix;
use real_operands::defined;

/// The default matrix of the page.
pub(crate) fn default_of(state: &State) -> Matrix
    ensures { result ≡ spec.default_of state.now }
{
    default_matrix(state.settings.dpi, state.regs.state.high.pixels())
}

/// What does first a matrix and then the current one: undefinedresult.
#[tactic(auto, unfolding(crate::specs::Current::before_current))]
pub(crate) fn before_current(matrix: &Matrix, state: &State) -> Result<Matrix, ErrorName>
    ensures { result ≡ spec.before_current matrix.now state.now }
{
    defined(mat_mul(matrix, &state.regs.state.ctm))
}

#[tactic(auto, unfolding(crate::specs::Current::with_matrix))]
pub(crate) fn set_matrix(graphics: &mut GState, matrix: Matrix)
    ensures { graphics.new ≡ spec.with_matrix graphics.old matrix }
{
    graphics.ctm = matrix;
}

pub(crate) fn setmatrix<M: Mem>(state: &mut State, mem: &mut M) -> Result<(), Refusal>
    requires { Ready state.old (M.log mem.old).view }
    ensures { Does spec.setmatrix state.old (M.log mem.old) result state.new (M.log mem.new) }
{
    let operands = &mut state.regs.operands;
    operands.need(1)?;
    let array = operands.array(0)?;
    operands.readable(0)?;
    six(array)?;
    let matrix = look_matrix(operands.alloc(), array, mem)?;
    operands.shrink(1);
    set_matrix(&mut state.regs.state, matrix);
    Ok(())
}

pub(crate) fn initmatrix(state: &mut State) -> Result<(), Refusal>
    ensures { DoesAlone spec.initmatrix state.old result state.new }
{
    let matrix = default_of(state);
    set_matrix(&mut state.regs.state, matrix);
    Ok(())
}

pub(crate) fn concat<M: Mem>(state: &mut State, mem: &mut M) -> Result<(), Refusal>
    requires { Ready state.old (M.log mem.old).view }
    ensures { Does spec.concat state.old (M.log mem.old) result state.new (M.log mem.new) }
{
    let operands = &state.regs.operands;
    operands.need(1)?;
    let array = operands.array(0)?;
    operands.readable(0)?;
    six(array)?;
    let matrix = look_matrix(operands.alloc(), array, mem)?;
    let product = before_current(&matrix, state)?;
    state.regs.operands.shrink(1);
    set_matrix(&mut state.regs.state, product);
    Ok(())
}
