//! The definitions that a definition reaches.

ghost use Rattle.std.specs.Prelude.{◌≡◌, ◌<◌, length, IfOk};
ghost use Rattle.rv_ltl.specs.inner.Reached.{Joins, NextIs, AreReachFlags};

use crate::uses::all_false;
use std::alloc::{AllocError, Global};

/// A place that is flagged and not done, if there is one.
fn next(flags: &[bool], done: &[bool]) -> Option<usize>
    requires { length flags.now ≡ length done.now }
    ensures { NextIs flags.now done.now result }
{
    for i in 0..done.len() {
        if flags[i] && !done[i] {
            return Some(i);
        }
    }
    None
}

/// Flags what the row flags.
fn join(flags: &mut Vec<bool>, row: &[bool])
    ensures { Joins flags.old.items row.now flags.new.items (length flags.old.items) }
{
    for i in 0..flags.len() {
        if i < row.len() && row[i] {
            flags[i] = true;
        }
    }
}

/// The root and all that it reaches, each definition followed once.
pub fn reached(alloc: Global, uses: &[Vec<bool>], root: usize) -> Result<Vec<bool>, AllocError>
    requires { root < length uses.now }
    ensures { IfOk result (λ v. AreReachFlags uses.now root v.items) }
{
    let mut flags = all_false(alloc, uses.len())?;
    let mut done = all_false(alloc, uses.len())?;
    flags[root] = true;
    while let Some(i) = next(&flags, &done) {
        join(&mut flags, &uses[i]);
        done[i] = true;
    }
    Ok(flags)
}
