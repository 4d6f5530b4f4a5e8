//! The committed memory, as an operator meets it.
ghost use Rattle.std.specs.Prelude.{◌≡◌, None, OnOk, OnErr, option_copied};
ghost use Rattle.ps_objects.specs.declared.place.Loc.TheVariants as loc;
ghost use Rattle.ps_objects.specs.declared.place.Value.TheVariants as value;
ghost use Rattle.ps_memory.specs.Memory.{store, fresh, save, perform};
ghost use Rattle.vm_content.specs.Content.{found_value};
ghost use Rattle.vm_mem.specs.Acts.{removal};
ghost use Rattle.vm_mem.specs.Conditions.{MayStore, MayMake, MayOpen};
ghost use Rattle.vm_mem.specs.Glances.{glance_at};

use crate::cells::{Cells, close_until};
use crate::page::Page;
use ps_objects::{Cell, Key, Loc, NoMemory, Object, SaveName, Shape, Value};
use ps_shapes::Paper;
use vm_content::Content;
use vm_mem::{Base, Glance, Mem, RestoreRefusal};

/// What a glance tells of the object at a place, if there is one.
fn glance_of(object: Option<&Object>) -> Glance
    ensures { result ≡ glance_at (found_value (option_copied object.entry)) }
{
    match object {
        Some(object) => Glance::of(object),
        None => Glance::Absent,
    }
}

/// Where memory runs out in a store, a new cell or a save, nothing has changed.
impl Mem for Cells {
    ghost log = { λ memory. record { view = memory; track = None } };

    fn look(&mut self, at: &Loc) -> Result<Value, NoMemory> {
        let value = self.view_at(at)?;
        Ok(value)
    }

    #[tactic(auto, using(crate::proofs::WholeValues::item_found, crate::proofs::WholeValues::item_missing))]
    fn glance_item(&mut self, array: Cell, at: u32) -> Result<Glance, NoMemory> {
        match self.content(array) {
            Some(content) => Ok(glance_of(content.item(at))),
            None => Ok(Glance::Absent),
        }
    }

    #[tactic(auto, using(crate::proofs::WholeValues::entry_found, crate::proofs::WholeValues::entry_missing))]
    fn glance_entry(&mut self, dict: Cell, key: &Key, _: u64) -> Result<Glance, NoMemory> {
        match self.content(dict) {
            Some(content) => Ok(glance_of(content.entry(key))),
            None => Ok(Glance::Absent),
        }
    }

    fn shape(&self, cell: Cell) -> Shape {
        match self.content(cell) {
            Some(content) => content.shape(),
            None => Shape::Dict { capacity: 0 },
        }
    }

    #[tactic(auto, using(vm_mem::proofs::Conditions::store_allowed))]
    fn store(&mut self, at: &Loc, value: Value) -> Result<(), NoMemory>
        requires { MayStore self.old at.now value }
        ensures ok { OnOk result (self.new ≡ perform (store at.now value) self.old) }
        ensures err { OnErr result (self.new ≡ self.old) }
    {
        match at {
            Loc::Entry { dict, .. } | Loc::Keys { dict } | Loc::Access { dict } => {
                self.put_held(*dict, at, value)
            }
            Loc::Item { array, .. } => self.put_held(*array, at, value),
            Loc::Byte { string, at } => {
                self.put_byte(*string, *at, value);
                Ok(())
            }
            Loc::Rand => {
                self.put_rand(value);
                Ok(())
            }
            Loc::Paper => {
                self.put_paper(value);
                Ok(())
            }
        }
    }

    #[tactic(auto, using(vm_mem::proofs::Conditions::store_allowed))]
    fn remove(&mut self, dict: Cell, key: &Key) -> Result<(), NoMemory>
        requires { MayStore self.old (loc.Entry dict key.now) value.Absent }
        ensures ok { OnOk result (self.new ≡ perform (removal dict key.now) self.old) }
        ensures err { OnErr result (self.new ≡ self.old) }
    {
        let at = Loc::Entry {
            dict,
            key: key.copy()?,
        };
        self.put_held(dict, &at, Value::Absent)
    }

    #[tactic(auto, using(crate::proofs::Asked::no_bytes, vm_mem::proofs::Conditions::make_newest, crate::proofs::WholeMaking::none_removed))]
    fn fresh(&mut self, cell: Cell, shape: Shape) -> Result<(), NoMemory>
        requires { MayMake self.old cell }
        ensures ok { OnOk result (self.new ≡ perform (fresh cell shape) self.old) }
        ensures err { OnErr result (self.new ≡ self.old) }
    {
        let content = Content::fresh(self.alloc, shape)?;
        match shape {
            Shape::Str { len } => self.make_string(cell, len, content),
            Shape::Array { .. } => self.make_held(cell, content),
            Shape::Dict { .. } => self.make_held(cell, content),
        }
    }

    #[tactic(auto, using(vm_mem::proofs::Conditions::here_so))]
    fn lift(&mut self) -> Result<Paper, NoMemory> {
        Ok(self.page.take())
    }

    fn lay(&mut self, paper: Paper) {
        self.page = Page::Here(paper);
    }

    fn wipe(&mut self, width: u32, height: u32) -> Result<(), NoMemory> {
        let paper = Paper::blank(self.alloc, width, height)?;
        self.page = Page::Here(paper);
        Ok(())
    }

    #[tactic(auto, using(crate::proofs::Asked::none_newer))]
    fn save(&mut self, name: SaveName) -> Result<(), NoMemory>
        requires { MayOpen self.old name }
        ensures ok { OnOk result (self.new ≡ perform (save name) self.old) }
        ensures err { OnErr result (self.new ≡ self.old) }
    {
        self.locals.open(name)
    }

    /// Gives the local part back as it was at an open save, and closes it and all later ones
    /// (section 3.7.3 of the language manual: save and restore).
    #[tactic(auto, using(vm_mem::proofs::Conditions::restore_allowed, crate::proofs::WholeClosing::holders_kept))]
    fn restore(&mut self, name: SaveName) -> Result<(), RestoreRefusal> {
        close_until(&mut self.locals, &mut self.strings, name)?;
        Ok(())
    }
}
