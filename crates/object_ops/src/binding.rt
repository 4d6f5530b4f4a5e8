//! Names of a procedure that become the operators that they find.
#![tactic(auto, using(ps_operator::proofs::Then::answer_then, ps_operator::proofs::Then::reads_then))]

ghost use Rattle.std.specs.Prelude.{◌≡◌, ◌<◌, true, IfOk, OnOk};
ghost use Rattle.ps_meaning.specs.Answer.{changed_in};
ghost use Rattle.ps_meaning.specs.Ready.{Ready};
ghost use Rattle.ps_operator.specs.Owes.{Does, Finds};
ghost use Rattle.ps_operator.specs.Standing.{is_array, are_dicts};
ghost use Rattle.object_ops.specs.Binding as spec;

use ps_kinds::{
    Access, Cell, DictStack, Interval, Key, Kind, Name, NoMemory, Object, Operands, Refusal, Stack,
    State,
};
use ps_operator::{Mem, find, look_item, storable, store_item};
use std::alloc::Global;
use std::collections::BTreeSet;

/// The most steps of a walk: more than the items and the ends of arrays that a memory can have to be looked at.
pub(crate) const STEPS: u64 = u64::MAX;

/// What is left of an array that is gone through.
#[derive(Clone, Copy)]
pub(crate) struct Part {
    pub array: Interval,

    /// The item that is next.
    pub at: u32,
}

/// An object that is to be stored in the place of an item.
#[derive(Drop)]
pub(crate) struct Bound {
    pub part: Part,
    pub object: Object,
}

/// What an item is to `bind`.
#[derive(Drop)]
pub(crate) enum Item {
    /// An executable name.
    Name(Name),

    /// A procedure that may be written.
    Inner(Interval),

    /// Anything else.
    Other,
}

/// What `bind` has still to look at, and what it has found.
#[derive(Drop)]
pub(crate) struct Binder {
    /// What is left of the arrays that are gone through, the innermost first.
    pub parts: Stack<Part>,

    /// Where the arrays that were met begin, as intervals of no length.
    pub met: BTreeSet<Interval>,

    /// What is to be stored, the last first.
    pub stores: Stack<Bound>,
}

fn whole(array: Interval) -> Part
    ensures { result ≡ spec.whole array }
{
    Part { array, at: 0 }
}

fn after(part: Part) -> Part
    requires { part.at < part.array.len }
    ensures { result ≡ spec.after part }
{
    Part {
        array: part.array,
        at: part.at + 1,
    }
}

fn beginning(array: Interval) -> Interval
    ensures { result ≡ spec.beginning array }
{
    Interval { len: 0, ..array }
}

fn operator_in(object: Object) -> Option<Object>
    ensures { result ≡ spec.if_operator object object.kind }
{
    match object.kind {
        Kind::Operator(_) => Some(object),
        _ => None,
    }
}

/// The value of a name, if it has one and this is an operator.
#[tactic(auto, using(crate::proofs::Walking::named_found, crate::proofs::Walking::named_nowhere, crate::proofs::Walking::looked_over))]
fn operator_named<M: Mem>(
    dicts: &DictStack,
    name: Key,
    mem: &mut M,
) -> Result<Option<Object>, NoMemory>
    requires { are_dicts (M.log mem.old).view dicts.now ≡ true }
    ensures view { OnOk result ((M.log mem.new).view ≡ (M.log mem.old).view) }
    ensures told { IfOk result (λ x. Finds (spec.operator_named dicts.now name) (M.log mem.old)
        x (M.log mem.new)) }
{
    match find(dicts, name, mem) {
        Ok(object) => Ok(operator_in(object)),
        Err(Refusal::Error(_)) => Ok(None),
        Err(Refusal::NoMemory) => Err(NoMemory),
    }
}

fn inner(cell: Cell, kind: &Kind, array: Interval, access: Access) -> Item
    ensures { result ≡ spec.inner cell kind.now array access }
{
    match access {
        Access::Unlimited => match storable(cell, kind) {
            Ok(()) => Item::Inner(array),
            Err(_) => Item::Other,
        },
        _ => Item::Other,
    }
}

/// What an item of an array in this cell is to `bind`.
fn item_of(cell: Cell, object: &Object) -> Result<Item, NoMemory>
    ensures { IfOk result (λ i. i ≡ spec.item_of cell object.now) }
{
    if !object.exec {
        return Ok(Item::Other);
    }
    Ok(match &object.kind {
        Kind::Name(name) => Item::Name(name.copy()?),
        Kind::Array { interval, .. } => inner(cell, &object.kind, *interval, object.access),
        _ => Item::Other,
    })
}

impl Binder {
    /// An array of which nothing was looked at.
    fn begun(alloc: Global, array: Interval) -> Result<Binder, NoMemory>
        ensures { IfOk result (λ b. spec.seen b ≡ spec.begun array) }
    {
        let mut parts = Stack::new(alloc);
        parts.push(whole(array))?;
        let mut met = BTreeSet::new(alloc);
        met.insert(beginning(array))?;
        Ok(Binder {
            parts,
            met,
            stores: Stack::new(alloc),
        })
    }

    /// An operator is to be stored in the place of the name that found it.
    fn keep_operator(&mut self, part: Part, found: Option<Object>) -> Result<(), NoMemory>
        ensures { OnOk result (spec.seen self.new
            ≡ spec.with_operator part found (spec.seen self.old)) }
    {
        if let Some(object) = found {
            self.stores.push(Bound { part, object })?;
        }
        Ok(())
    }

    /// An inner array becomes read-only, and is gone through where it is met first.
    fn go_down(&mut self, part: Part, object: Object, array: Interval) -> Result<(), NoMemory>
        ensures { OnOk result (spec.seen self.new
            ≡ spec.goes_down part object array (spec.seen self.old)) }
    {
        if self.met.insert(beginning(array))? {
            self.parts.push(whole(array))?;
        }
        let object = Object {
            kind: object.kind,
            exec: object.exec,
            access: Access::ReadOnly,
        };
        self.stores.push(Bound { part, object })
    }

    /// What comes of an item.
    fn take<M: Mem>(
        &mut self,
        dicts: &DictStack,
        part: Part,
        object: Object,
        item: Item,
        mem: &mut M,
    ) -> Result<(), NoMemory>
        requires { are_dicts (M.log mem.old).view dicts.now ≡ true }
        ensures view { OnOk result ((M.log mem.new).view ≡ (M.log mem.old).view) }
        ensures told { OnOk result (Finds (spec.binds dicts.now part object item
            (spec.seen self.old)) (M.log mem.old) (spec.seen self.new) (M.log mem.new)) }
    {
        match item {
            Item::Name(name) => {
                let found = operator_named(dicts, Key::Name(name), mem)?;
                self.keep_operator(part, found)
            }
            Item::Inner(array) => self.go_down(part, object, array),
            Item::Other => Ok(()),
        }
    }

    /// Looks at one item. The rest of its array comes after what it leads to.
    #[tactic(auto, using(crate::proofs::Walking::passes_as, ps_operator::proofs::Standing::dicts_stand))]
    fn pass<M: Mem>(&mut self, state: &State, part: Part, mem: &mut M) -> Result<(), NoMemory>
        requires ready { Ready state.now (M.log mem.old).view }
        requires array { is_array (M.log mem.old).view part.array ≡ true }
        requires at { part.at < part.array.len }
        ensures view { OnOk result ((M.log mem.new).view ≡ (M.log mem.old).view) }
        ensures told { OnOk result (Finds (spec.passes state.now.regs.dicts part
            (spec.seen self.old)) (M.log mem.old) (spec.seen self.new) (M.log mem.new)) }
    {
        self.parts.push(after(part))?;
        let object = look_item(mem, part.array, part.at)?;
        let item = item_of(part.array.cell, &object)?;
        self.take(&state.regs.dicts, part, object, item, mem)?;
        Ok(())
    }

    /// One step: an item, or the end of an array.
    fn step<M: Mem>(&mut self, state: &State, part: Part, mem: &mut M) -> Result<(), NoMemory>
        requires ready { Ready state.now (M.log mem.old).view }
        requires array { is_array (M.log mem.old).view part.array ≡ true }
        ensures view { OnOk result ((M.log mem.new).view ≡ (M.log mem.old).view) }
        ensures told { OnOk result (Finds (spec.step state.now.regs.dicts part
            (spec.seen self.old)) (M.log mem.old) (spec.seen self.new) (M.log mem.new)) }
    {
        if part.at < part.array.len {
            self.pass(state, part, mem)?;
        }
        Ok(())
    }

    /// Looks at items until nothing is left, in at most so many steps.
    #[tactic(auto, using(crate::proofs::Walking::walk_end, crate::proofs::Walking::walk_over, crate::proofs::Walking::part_stands, crate::proofs::Walking::stores_stand_then))]
    fn walk<M: Mem>(&mut self, state: &State, steps: u64, mem: &mut M) -> Result<(), NoMemory>
        requires ready { Ready state.now (M.log mem.old).view }
        requires stands { spec.stands (M.log mem.old).view (spec.seen self.old) ≡ true }
        ensures view { OnOk result ((M.log mem.new).view ≡ (M.log mem.old).view) }
        ensures told { OnOk result (Finds (spec.walk steps state.now.regs.dicts
            (spec.seen self.old)) (M.log mem.old) self.new.stores (M.log mem.new)) }
        ensures stand { OnOk result
            (spec.stores_stand (M.log mem.new).view self.new.stores ≡ true) }
    {
        for _ in 0..steps {
            let Some(part) = self.parts.pop() else {
                return Ok(());
            };
            self.step(state, part, mem)?;
        }
        Ok(())
    }

    /// Stores what is to be stored, the last first.
    #[tactic(auto, using(crate::proofs::Walking::place_stands, crate::proofs::Walking::place_below, crate::proofs::Walking::others_stand, crate::proofs::Walking::stores_stay))]
    fn store<M: Mem>(&mut self, mem: &mut M) -> Result<(), NoMemory>
        requires { spec.stores_stand (M.log mem.old).view self.old.stores ≡ true }
        ensures { OnOk result (M.log mem.new
            ≡ changed_in (M.log mem.old) (spec.bound_stores self.old.stores)) }
    {
        while let Some(bound) = self.stores.pop() {
            store_item(mem, bound.part.array, bound.part.at, bound.object)?;
        }
        Ok(())
    }
}

#[tactic(auto, using(ps_operator::proofs::Then::answer_then, ps_operator::proofs::Standing::procedure_stands, crate::proofs::Walking::begun_stands, crate::proofs::Bound::stores_take_none))]
pub(crate) fn bind<M: Mem>(state: &mut State, mem: &mut M) -> Result<(), Refusal>
    requires { Ready state.old (M.log mem.old).view }
    ensures { Does spec.bind state.old (M.log mem.old) result state.new (M.log mem.new) }
{
    let operands = &state.regs.operands;
    operands.need(1)?;
    let array = operands.procedure(0)?;
    operands.writable(0)?;
    let mut binder = Binder::begun(operands.alloc(), array)?;
    binder.walk(state, STEPS, mem)?;
    binder.store(mem)?;
    Ok(())
}
