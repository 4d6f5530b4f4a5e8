//! What the table does: an operator's crate is found by the operator's place in the list of operators.
ghost use Rattle.std.specs.Prelude.{◌≡◌, true};
ghost use Rattle.ps_meaning.specs.Ready.{ReadyIn};
ghost use Rattle.ps_operator.specs.Owes.{Runs};
ghost use Rattle.control_ops.specs.Rounds as rounds;
ghost use Rattle.path_build.specs.Walks as walks;
ghost use Rattle.dict_ops.specs.Operators as dicts;
ghost use Rattle.operator_table.specs.Operators.{on_container};

use ps_kinds::{Act, ErrorName, Frames, NoMemory, Op, ShowRun, State};
use ps_names::places;
use ps_steps::Operators;
use vm_mem::Mem;

/// The operators of all crates that are there.
///
/// An operator whose crate isn't there is undefined, and so is the step of a frame whose crate isn't there.
pub struct AllOperators;

/// Whether the newest of these frames is one of the control operators.
#[tactic(auto, using(crate::proofs::Walking::walks_first, crate::proofs::Walking::walks_none))]
fn is_control(frames: &Frames) -> bool
    ensures { result ≡ rounds.walks_in frames.now }
{
    !frames.is_empty() && control_ops::walks(frames.at(0))
}

/// Whether the newest of these frames is one of the walks along a path.
#[tactic(auto, using(crate::proofs::Walking::path_walks_first, crate::proofs::Walking::path_walks_none))]
fn is_path_walk(frames: &Frames) -> bool
    ensures { result ≡ walks.walks_in frames.now }
{
    !frames.is_empty() && path_build::walks(frames.at(0))
}

/// Runs an operator on dictionaries, or one of the same name on arrays and strings, where the container is no dictionary.
#[tactic(auto, using(crate::proofs::Containers::on_dictionary, crate::proofs::Containers::on_array, crate::proofs::Containers::is_array_too))]
fn run_on_container<M: Mem>(
    op: Op,
    text: &[u8],
    state: &mut State,
    mem: &mut M,
) -> Result<Act, NoMemory>
    requires offered { dicts.is_offered op ≡ true }
    requires ready { ReadyIn text.now state.old (M.log mem.old).view }
    ensures { Runs (on_container op) state.old (M.log mem.old) result state.new (M.log mem.new) }
{
    if dict_ops::belongs(op, state) {
        dict_ops::run(op, text, state, mem)
    } else {
        array_ops::run(op, text, state, mem)
    }
}

impl<M: Mem> Operators<M> for AllOperators {
    ghost use Rattle.operator_table.specs.Operators as spec;
    ghost use Rattle.operator_table.specs.Kept.{table_lawful};

    ghost table = { spec.table };

    fn run(op: Op, text: &[u8], state: &mut State, mem: &mut M) -> Result<Act, NoMemory> {
        match op.index() {
            places::POP..=places::BITSHIFT => stack_arith::run(op, text, state, mem),
            places::STRING..=places::PSTACK => text_ops::run(op, text, state, mem),
            places::DICT..=places::DICTSTACK => run_on_container(op, text, state, mem),
            places::ARRAY..=places::ASTORE => array_ops::run(op, text, state, mem),
            places::TYPE..=places::BIND => object_ops::run(op, text, state, mem),
            places::EXEC..=places::STOPPED => control_ops::run(op, text, state, mem),
            places::CURRENTFILE..=places::FLUSH => file_ops::run(op, text, state, mem),
            places::SAVE..=places::USERTIME => save_restore::run(op, text, state, mem),
            places::MATRIX..=places::IDTRANSFORM => mat_ops::run(op, text, state, mem),
            places::GSAVE..=places::CURRENTDASH => gstate::run(op, text, state, mem),
            places::SETGRAY..=places::CURRENTHALFTONE => colour_ops::run(op, text, state, mem),
            places::NEWPATH..=places::CLOSEPATH => path_build::run(op, text, state, mem),
            places::FLATTENPATH => clip_ops::run(op, text, state, mem),
            places::CLIPPATH => Ok(Act::Fail(ErrorName::Undefined)),
            places::PATHBBOX..=places::PATHFORALL => path_build::run(op, text, state, mem),
            places::INITCLIP..=places::EOCLIP => clip_ops::run(op, text, state, mem),
            places::RECTCLIP => Ok(Act::Fail(ErrorName::Undefined)),
            places::FILL..=places::EOFILL => paint_ops::run(op, text, state, mem),
            places::STROKE => Ok(Act::Fail(ErrorName::Undefined)),
            places::RECTFILL => paint_ops::run(op, text, state, mem),
            places::RECTSTROKE => Ok(Act::Fail(ErrorName::Undefined)),
            places::ERASEPAGE..=places::COPYPAGE => paint_ops::run(op, text, state, mem),
            places::FIRST_DEFAULT_ENTRY.. => error_ops::run(op, text, state, mem),
            _ => Ok(Act::Fail(ErrorName::Undefined)),
        }
    }

    /// A crate whose frames take steps has its arm here, by the kind of the newest frame.
    #[tactic(auto, using(crate::proofs::Walking::runs_there, crate::proofs::Walking::runs_path, crate::proofs::Walking::runs_absent))]
    fn step(text: &[u8], state: &mut State, mem: &mut M) -> Result<Act, NoMemory> {
        if is_control(&state.frames) {
            control_ops::step(text, state, mem)
        } else if is_path_walk(&state.frames) {
            path_build::step(text, state, mem)
        } else {
            Ok(Act::Fail(ErrorName::Undefined))
        }
    }

    /// A show leaves the registers as they are, until the crate of shows is there.
    fn leave(_run: &ShowRun, _state: &mut State, _mem: &mut M) -> Result<(), NoMemory> {
        Ok(())
    }

    ghost lawful = { table_lawful };
}
