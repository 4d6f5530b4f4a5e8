//! Stacks.
ghost use Rattle.std.specs.Prelude.{◌≡◌, ◌<◌, ◌≤◌, ◌==◌, List, [], ◌∷◌, length, drop, slice_get, option_copied, Some, MatchOption, IfOk, OnOk, OnErr, reverse};
ghost use Rattle.copy_lists.specs.Stacks.{Pops};
ghost use Rattle.copy_lists.specs.Turned.{end_turned};

use crate::{Duplicate, NoMemory};
use std::alloc::Global;
use std::marker::Model;

/// A stack, seen with the newest first.
#[derive(Drop)]
pub struct Stack<T: Drop> {
    items: Vec<T>,
}

impl<T: Drop> Model for Stack<T> {
    ghost use Rattle.std.specs.Prelude.{List, reverse};

    ghost Value = { List T };

    ghost view = { λ stack. reverse stack.items.items };
}

impl<T: Drop> Stack<T> {
    pub fn new(alloc: Global) -> Stack<T>
        ensures { result ≡ [] }
    {
        Stack {
            items: Vec::new(alloc),
        }
    }

    /// Where the stack's memory comes from.
    pub fn alloc(&self) -> Global {
        *self.items.allocator()
    }

    pub fn len(&self) -> usize
        ensures { result ≡ length self.now }
    {
        self.items.len()
    }

    pub fn is_empty(&self) -> bool
        ensures { result ≡ (length self.now == 0) }
    {
        self.items.is_empty()
    }

    /// What is `depth` below the newest.
    pub fn get(&self, depth: usize) -> Option<&T>
        ensures { option_copied result ≡ slice_get self.now depth }
    {
        let len = self.items.len();
        if depth < len {
            Some(&self.items[len - 1 - depth])
        } else {
            None
        }
    }

    /// What is `depth` below the newest.
    pub fn at(&self, depth: usize) -> &T
        requires { depth < length self.now }
        ensures { slice_get self.now depth ≡ Some result.now }
    {
        &self.items[self.items.len() - 1 - depth]
    }

    pub fn push(&mut self, item: T) -> Result<(), NoMemory>
        ensures ok { OnOk result (self.new ≡ item ∷ self.old) }
        ensures err { OnErr result (self.new ≡ self.old) }
    {
        self.items.push(item)?;
        Ok(())
    }

    pub fn pop(&mut self) -> Option<T>
        ensures { Pops self.old self.new result }
    {
        self.items.pop()
    }

    /// Puts an item in the place of the newest.
    pub fn replace(&mut self, item: T)
        requires { 0 < length self.old }
        ensures { self.new ≡ item ∷ drop 1 self.old }
    {
        let last = self.items.len() - 1;
        self.items[last] = item;
    }

    pub fn clear(&mut self)
        ensures { self.new ≡ [] }
    {
        self.items.clear();
    }

    /// Takes away the newest `n`.
    pub fn shrink(&mut self, n: usize)
        requires { n ≤ length self.old }
        ensures { self.new ≡ drop n self.old }
    {
        let keep = self.items.len() - n;
        self.items.truncate(keep);
    }
}

impl<T: Drop> Stack<T> {
    ghost use Rattle.copy_lists.specs.Turned.{rolled};

    /// Exchanges the newest two.
    pub fn exchange(&mut self)
        requires { 2 ≤ length self.old }
        ensures { self.new ≡ rolled 2 1 self.old }
    {
        turn_end(&mut self.items, 2, 1);
    }

    /// Turns the newest `n`, so that the newest `k` go below the others.
    pub fn roll(&mut self, n: usize, k: usize)
        requires n { n ≤ length self.old }
        requires k { k ≤ n }
        ensures { self.new ≡ rolled n k self.old }
    {
        turn_end(&mut self.items, n, k);
    }
}

impl<T: Drop + Duplicate> Stack<T> {
    pub fn copy(&self) -> Result<Stack<T>, NoMemory>
        ensures { IfOk result (λ stack. stack ≡ self.now) }
    {
        let mut items = Vec::new(*self.items.allocator());
        for item in self.items.iter() {
            items.push(item.duplicate()?)?;
        }
        Ok(Stack { items })
    }
}

impl<T: Drop + PartialEq> PartialEq for Stack<T> {
    ghost use Rattle.std.specs.Prelude.{reverse};
    ghost use Rattle.std.specs.Cmp.{on_per};
    ghost use Rattle.std.specs.Ordering.{on};
    ghost use Rattle.std.specs.Cmp.Lexicographic.{lists_per, pointwise};

    ghost eq = { on reverse (pointwise T.eq) };

    ghost laws = { on_per reverse (lists_per T.laws) };

    #[tactic(auto, using(crate::proofs::Reversed::turned_back))]
    fn eq(&self, other: &Stack<T>) -> bool {
        self.items == other.items
    }
}

impl<T: Drop + Eq> Eq for Stack<T> {
    ghost use Rattle.std.specs.Prelude.{reverse};
    ghost use Rattle.std.specs.Cmp.{on_equiv};
    ghost use Rattle.std.specs.Cmp.Lexicographic.{lists_equiv};

    ghost laws = { on_equiv reverse (lists_equiv T.Eq.laws) };
}

/// Turns the last `n` right by `k`.
fn turn_end<T: Drop>(items: &mut Vec<T>, n: usize, k: usize)
    requires n { n ≤ length items.old.items }
    requires k { k ≤ n }
    ensures { items.new.items ≡ end_turned items.old.items n k }
{
    let below = items.len() - n;
    items[below..].rotate_right(k);
}
