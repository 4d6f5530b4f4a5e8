//! The keys of a dictionary, as they are now and as they were at the start.
ghost use Rattle.std.specs.Prelude.{◌≡◌, ◌++◌, IfOk, OnOk};
ghost use Rattle.dump_text.specs.Keys as spec;

use copy_lists::NoMemory;
use ps_kinds::{Cell, Key, Keys, Loc, Value};
use std::alloc::Global;
use std::cmp::Ordering;
use vm_mem::Base;

/// Appends copies of keys.
fn push_keys(keys: &mut Keys, more: &[Key]) -> Result<(), NoMemory>
    ensures { OnOk result (keys.new ≡ keys.old ++ more.now) }
{
    for key in more {
        keys.push(key.copy()?)?;
    }
    Ok(())
}

/// Two lists of keys in order as one, a key of both once.
pub(crate) fn merged(alloc: Global, before: &[Key], now: &[Key]) -> Result<Keys, NoMemory>
    ensures { IfOk result (λ keys. keys ≡ spec.merged before.now now.now) }
{
    let mut keys = Keys::new(alloc);
    let mut first = 0;
    let mut second = 0;
    'pairs: while first < before.len() && second < now.len() {
        match now[second].compare(&before[first]) {
            Ordering::Less => {
                keys.push(now[second].copy()?)?;
                second += 1;
            }
            Ordering::Equal => {
                keys.push(before[first].copy()?)?;
                first += 1;
                second += 1;
            }
            Ordering::Greater => {
                keys.push(before[first].copy()?)?;
                first += 1;
            }
        }
    }
    push_keys(&mut keys, &before[first..])?;
    push_keys(&mut keys, &now[second..])?;
    Ok(keys)
}

/// The keys of a dictionary, in their order; none where it doesn't stand.
pub(crate) fn keys_at<B: Base>(alloc: Global, mem: &B, dict: Cell) -> Result<Keys, NoMemory>
    ensures { IfOk result (λ keys. keys ≡ spec.keys_at (B.log mem.now).view dict) }
{
    match mem.view_at(&Loc::Keys { dict })? {
        Value::Keys(keys) => Ok(keys),
        _ => Ok(Keys::new(alloc)),
    }
}
