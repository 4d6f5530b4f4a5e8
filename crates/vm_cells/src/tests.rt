use super::*;
use crate::asked::{act, apply, is_here, restore, stands};
use crate::plain::Plain;
use crate::script::{Held, LIST, SCRIPT, SYSTEM_DICT, Step, USER_DICT};
use ps_objects::{
    Access, Cell, Key, Kind, Loc, Name, NoMemory, Object, Op, Paper, SaveName, Settings, Shape,
    Value,
};
use ps_shapes::Span;
use std::test::Fail;
use vm_mem::hash_of;

/// Takes a step on a memory, if its condition is met.
fn take_step(memory: &mut Cells, step: Step) -> Result<bool, NoMemory> {
    if let Step::Restore(name) = step {
        return restore(memory, name);
    }
    match step.write() {
        Some(write) => act(memory, write),
        None => Ok(false),
    }
}

/// Takes a step on a memory and a plain one. Where memory runs out, nothing has changed, and it is taken again.
fn take_both(memory: &mut Cells, plain: &mut Plain, step: Step) -> Result<bool, NoMemory> {
    let done = match take_step(memory, step) {
        Ok(done) => done,
        Err(error) => {
            if let Step::Restore(_) = step {
                return Err(error);
            }
            plain.agrees(memory)? && take_step(memory, step)?
        }
    };
    plain.take_step(step)?;
    Ok(done && plain.agrees(memory)?)
}

/// Does steps at once on a memory, and one by one on a plain one. Where memory runs out, nothing has changed, and they are done again.
fn apply_both(
    memory: &mut Cells,
    plain: &mut Plain,
    steps: &mut Vec<Step>,
) -> Result<bool, NoMemory> {
    let done = match apply(memory, steps) {
        Ok(done) => done,
        Err(_) => plain.agrees(memory)? && apply(memory, steps)?,
    };
    for step in steps.as_slice() {
        plain.take_step(*step)?;
    }
    steps.clear();
    Ok(done && plain.agrees(memory)?)
}

/// Restores a save in a memory, a copy of it and a plain one.
fn restore_all(memory: &mut Cells, plain: &mut Plain, name: SaveName) -> Result<bool, NoMemory> {
    let mut copy = memory.copy()?;
    let done = restore(&mut copy, name)?;
    let unchanged = plain.agrees(memory)?;
    plain.take_step(Step::Restore(name))?;
    let same = plain.agrees(&copy)?;
    Ok(done && unchanged && same && restore(memory, name)? && plain.agrees(memory)?)
}

/// The memory with which a job starts, on paper of 3 by 2 pixels.
fn start(rt: &HostRuntime) -> Result<Cells, NoMemory> {
    let settings = Settings {
        dpi: 72,
        width: 3,
        height: 2,
        keep: false,
    };
    Base::start(rt.alloc(), &settings)
}

#[test]
fn restores_put_back_what_saves_kept(rt: HostRuntime) -> Result<(), Fail> {
    let mut memory = start(&rt)?;
    let mut plain = Plain::start(&rt)?;
    assert!(rt; plain.agrees(&memory)?);
    let mut number = 0u32;
    for step in SCRIPT {
        assert!(rt;
            take_both(&mut memory, &mut plain, *step)?,
            "at step {number}"
        );
        number = number.saturating_add(1);
    }
    Ok(())
}

#[test]
fn writes_at_once_do_the_same(rt: HostRuntime) -> Result<(), Fail> {
    let mut memory = start(&rt)?;
    let mut plain = Plain::start(&rt)?;
    let mut steps = Vec::new(rt.alloc());
    let mut number = 0u32;
    for step in SCRIPT {
        if matches!(step, Step::Save(_) | Step::Restore(_)) {
            assert!(rt;
                apply_both(&mut memory, &mut plain, &mut steps)?,
                "before step {number}"
            );
        }
        match step {
            Step::Restore(name) => {
                assert!(rt;
                    restore_all(&mut memory, &mut plain, *name)?,
                    "at step {number}"
                );
            }
            _ => steps.push(*step)?,
        }
        number = number.saturating_add(1);
    }
    assert!(rt; apply_both(&mut memory, &mut plain, &mut steps)?);
    Ok(())
}

/// Whether a look tells a value, and so do the calls that tell all values.
#[tactic(auto, using(vm_mem::proofs::Conditions::may_look))]
fn looks(memory: &mut Cells, at: &Loc, value: &Value) -> Result<bool, NoMemory> {
    if !is_here(memory) || !stands(memory, at) {
        return Ok(false);
    }
    Ok(memory.look(at)? == *value && memory.view_at(at)? == *value && memory.same(at, value))
}

/// Whether a glance at an item tells this.
#[tactic(auto, using(vm_mem::proofs::Conditions::may_look))]
fn glances_item(memory: &mut Cells, array: Cell, at: u32, told: Glance) -> Result<bool, NoMemory> {
    if !is_here(memory) || !stands(memory, &Loc::Item { array, at }) {
        return Ok(false);
    }
    Ok(memory.glance_item(array, at)? == told)
}

/// Whether a glance at an entry tells this.
#[tactic(auto, using(vm_mem::proofs::Conditions::may_look))]
fn glances_entry(memory: &mut Cells, dict: Cell, key: Key, told: Glance) -> Result<bool, NoMemory> {
    let at = Loc::Entry {
        dict,
        key: key.copy()?,
    };
    if !is_here(memory) || !stands(memory, &at) {
        return Ok(false);
    }
    Ok(memory.glance_entry(dict, &key, hash_of(&key))? == told)
}

#[test]
fn glances_tell_without_copies(rt: HostRuntime) -> Result<(), Fail> {
    let mut memory = start(&rt)?;
    let shape = Shape::Array { len: 2 };
    assert!(rt; act(&mut memory, Write::Fresh { cell: LIST, shape })?);
    let at = Loc::Item { array: LIST, at: 1 };
    let value = Held::Integer(-7).value();
    assert!(rt; act(&mut memory, Write::Put { at, value })?);
    assert!(rt; glances_item(&mut memory, LIST, 0, Glance::Other)?);
    assert!(rt; glances_item(&mut memory, LIST, 1, Glance::Integer(-7))?);
    let exch = Op::from_index(1).ok_or("no operator")?;
    let name = Name::within_limit(rt.alloc(), b"exch")?;
    assert!(rt;
        glances_entry(
            &mut memory,
            SYSTEM_DICT,
            Key::Name(name),
            Glance::Operator(exch)
        )?
    );
    let name = Name::within_limit(rt.alloc(), b"exch")?;
    assert!(rt; glances_entry(&mut memory, USER_DICT, Key::Name(name), Glance::Absent)?);
    Ok(())
}

/// How many cells stand, if that is below 100 and their shapes are told.
#[tactic(auto, using(vm_mem::proofs::Conditions::may_ask))]
fn cells_in(memory: &Cells) -> Option<u32> {
    if !is_here(memory) {
        return None;
    }
    let mut last = None;
    for count in 0..100 {
        let Some((cell, shape)) = memory.cell_after(last) else {
            return Some(count);
        };
        if memory.shape(cell) != shape {
            return None;
        }
        last = Some(cell);
    }
    None
}

/// Lifts the paper, blackens a pixel and lays it back.
#[tactic(auto, using(vm_mem::proofs::Conditions::may_lay_out))]
fn paints(memory: &mut Cells) -> Result<bool, NoMemory> {
    if !is_here(memory) {
        return Ok(false);
    }
    let mut paper = memory.lift()?;
    let is_out = memory.same(&Loc::Paper, &Value::Absent);
    let span = Span {
        row: 1,
        first: 2,
        past: 3,
    };
    if paper.width() == 3 && paper.height() == 2 {
        paper.fill(span, true);
    }
    let painted = Value::Paper(paper.copy()?);
    let is_painted = !paper.is_blank();
    memory.lay(paper);
    Ok(is_out && is_painted && memory.same(&Loc::Paper, &painted))
}

fn wipes(memory: &mut Cells, width: u32, height: u32) -> Result<bool, NoMemory> {
    if !is_here(memory) {
        return Ok(false);
    }
    memory.wipe(width, height)?;
    let blank = Value::Paper(Paper::blank(memory.alloc(), width, height)?);
    Ok(memory.view_at(&Loc::Paper)? == blank)
}

#[test]
fn other_calls_answer(rt: HostRuntime) -> Result<(), Fail> {
    let mut memory = start(&rt)?;
    assert!(rt; cells_in(&memory) == Some(11));
    let add = Loc::Entry {
        dict: SYSTEM_DICT,
        key: Key::Name(Name::within_limit(rt.alloc(), b"add")?),
    };
    let operator = Value::Object(Object {
        kind: Kind::Operator(Op::from_index(12).ok_or("no operator")?),
        exec: true,
        access: Access::Unlimited,
    });
    assert!(rt; looks(&mut memory, &add, &operator)?);
    assert!(rt; looks(&mut memory, &Loc::Rand, &Value::Rand(1))?);
    assert!(rt; memory.places() == 0);
    assert!(rt; memory.index(&add) == None);
    assert!(rt; paints(&mut memory)?);
    assert!(rt; wipes(&mut memory, 9, 1)?);
    Ok(())
}
