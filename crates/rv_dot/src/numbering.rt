//! Sets of names, and the numbers of names in them.
ghost use Rattle.std.specs.Prelude.{◌≡◌, ◌<◌, ◌∷◌, length, map, IfOk, IfSome};
ghost use Rattle.std.specs.List.{list_all};
ghost use Rattle.std.specs.Cmp.Lexicographic.{slice_cmp};
ghost use Rattle.std.specs.Ordering.{nat_cmp};
ghost use Rattle.rv_text.specs.inner.Ascending.{Ascends};
ghost use Rattle.rv_dot.specs.Sets.{ascending, place_of, stands_in, number_in};
ghost use Rattle.rv_dot.specs.inner.Held.{bytes_of, arc as arc_of};
ghost use Rattle.rv_dot.specs.Moves.{moves_of, arc_move};
ghost use Rattle.rv_dot.specs.Dot.{ends_declared};

use crate::gather::Arc;
use crate::moves::Move;
use std::alloc::{AllocError, Global};
use std::collections::BTreeSet;

fn gathered<'a>(alloc: Global, names: &[&'a [u8]]) -> Result<BTreeSet<&'a [u8]>, AllocError>
    ensures { IfOk result (λ set. map bytes_of set.keys ≡ ascending (map bytes_of names.now)) }
{
    let mut set = BTreeSet::new(alloc);
    'names: for name in names {
        set.insert(*name)?;
    }
    Ok(set)
}

/// The names, ascending by bytes, each once.
pub fn ascending<'a>(alloc: Global, names: &[&'a [u8]]) -> Result<Vec<&'a [u8]>, AllocError>
    ensures { IfOk result (λ v. map bytes_of v.items ≡ ascending (map bytes_of names.now)) }
{
    let set = gathered(alloc, names)?;
    set.into_iter().collect(alloc)
}

/// The first place of the name, if it stands there.
pub fn place_among(ascending: &[&[u8]], name: &[u8]) -> Option<usize>
    requires { Ascends (slice_cmp nat_cmp) (map bytes_of ascending.now) }
    ensures value { result ≡ place_of name.now (map bytes_of ascending.now) }
    ensures within { IfSome result (λ place. place < length ascending.now) }
{
    match ascending.binary_search(&name) {
        Ok(place) => Some(place),
        Err(_) => None,
    }
}

/// The place of the name among the first one and then the others.
#[tactic(auto, unfolding(crate::specs::Sets::place_of))]
fn state_place(first: &[u8], others: &[&[u8]], name: &[u8]) -> Option<usize>
    requires { Ascends (slice_cmp nat_cmp) (map bytes_of others.now) }
    ensures { result ≡ place_of name.now (first.now ∷ map bytes_of others.now) }
{
    if first == name {
        return Some(0);
    }
    let place = place_among(others, name)?;
    Some(place + 1)
}

/// The states are the first and the others, ascending; the events ascend.
#[derive(Clone, Copy)]
pub struct Numbering<'n, 's> {
    pub first: &'s [u8],
    pub others: &'n [&'s [u8]],
    pub events: &'n [&'s [u8]],
}

impl Numbering<'_, '_> {
    ghost use Rattle.rv_dot.specs.inner.Numberings.{IsNumbering, states_by, events_by};

    /// Whether the name is a state's.
    pub fn is_declared(&self, name: &[u8]) -> bool
        requires { IsNumbering self.now }
        ensures { result ≡ stands_in (states_by self.now) name.now }
    {
        state_place(self.first, self.others, name).is_some()
    }

    fn state(&self, name: &[u8]) -> usize
        requires { IsNumbering self.now }
        ensures { result ≡ number_in (states_by self.now) name.now }
    {
        state_place(self.first, self.others, name).unwrap_or(0)
    }

    fn event(&self, name: &[u8]) -> usize
        requires { IsNumbering self.now }
        ensures { result ≡ number_in (events_by self.now) name.now }
    {
        place_among(self.events, name).unwrap_or(0)
    }

    fn arc_move(&self, arc: Arc<'_>) -> Move
        requires { IsNumbering self.now }
        ensures { result ≡ arc_move (states_by self.now) (events_by self.now) (arc_of arc.entry) }
    {
        Move {
            from: self.state(arc.from),
            event: self.event(arc.event),
            to: self.state(arc.to),
        }
    }

    /// Whether both ends of each arc are states.
    pub fn are_declared(&self, arcs: &[Arc<'_>]) -> bool
        requires { IsNumbering self.now }
        ensures { result ≡ list_all (ends_declared (states_by self.now)) (map arc_of arcs.now) }
    {
        let mut rest = arcs;
        while let [first, after @ ..] = rest {
            if !self.is_declared(first.from) || !self.is_declared(first.to) {
                return false;
            }
            rest = after;
        }
        true
    }

    fn gathered_moves(&self, alloc: Global, arcs: &[Arc<'_>]) -> Result<BTreeSet<Move>, AllocError>
        requires { IsNumbering self.now }
        ensures { IfOk result (λ set. set.keys ≡ moves_of (map (arc_move (states_by self.now) (events_by self.now)) (map arc_of arcs.now))) }
    {
        let mut set = BTreeSet::new(alloc);
        'arcs: for arc in arcs {
            set.insert(self.arc_move(*arc))?;
        }
        Ok(set)
    }

    /// The moves of the arcs, ascending, each once.
    pub fn moves(&self, alloc: Global, arcs: &[Arc<'_>]) -> Result<Vec<Move>, AllocError>
        requires { IsNumbering self.now }
        ensures { IfOk result (λ v. v.items ≡ moves_of (map (arc_move (states_by self.now) (events_by self.now)) (map arc_of arcs.now))) }
    {
        let set = self.gathered_moves(alloc, arcs)?;
        set.into_iter().collect(alloc)
    }
}
