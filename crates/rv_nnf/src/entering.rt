//! Entering parts into a list, in which each stands once.
ghost use Rattle.std.specs.Prelude.{◌≡◌, ◌↔◌, ◌≤◌, vec_len, IsTrue, OnOk};
ghost use Rattle.rv_text.specs.Readings.{Gives};
ghost use Rattle.rv_nnf.specs.inner.Entering.{same_part, try_enter};
ghost use Rattle.rv_nnf.specs.Lists.{place as place_in};
ghost use Rattle.rv_nnf.specs.Views.{part_value, part_values};

use crate::parts::Part;
use rv_text::{Refusal, Refused, TOO_MANY_PARTS};

/// The most parts that a normal form may have.
pub const MOST_PARTS: usize = 64;

/// Whether the two are the same part.
fn equal(a: &Part, b: &Part) -> bool
    ensures { IsTrue result ↔ part_value a.now ≡ part_value b.now }
{
    match a {
        Part::Label(f) => match b {
            Part::Label(g) => f.equals(g),
            _ => false,
        },
        Part::And(i, j) => matches!(b, Part::And(k, l) if *i == *k && *j == *l),
        Part::Or(i, j) => matches!(b, Part::Or(k, l) if *i == *k && *j == *l),
        Part::Next(i) => matches!(b, Part::Next(k) if *i == *k),
        Part::Until(i, j) => matches!(b, Part::Until(k, l) if *i == *k && *j == *l),
        Part::Release(i, j) => matches!(b, Part::Release(k, l) if *i == *k && *j == *l),
    }
}

/// Where the part first stands, or the number of parts where it does not.
fn place(parts: &[Part], part: &Part) -> usize
    ensures { result ≡ place_in same_part (part_values parts.now) (part_value part.now) }
{
    for (i, candidate) in parts.iter().enumerate() {
        if equal(candidate, part) {
            return i;
        }
    }
    parts.len()
}

/// A value that is dropped on one path and moved on another is dropped here, so that the paths stay apart.
fn discard(_part: Part) {}

/// The number of a part, which is entered at the end where it is not there yet.
#[tactic(auto, using(crate::proofs::EnterLemmas::place_most))]
pub fn enter(parts: &mut Vec<Part>, part: Part) -> Result<u8, Refused>
    requires { vec_len parts.old ≤ 64 }
    ensures gives { Gives (λ number. (part_values parts.new.items, number)) result (try_enter (part_values parts.old.items) (part_value part)) }
    ensures few { OnOk result (vec_len parts.new ≤ 64) }
{
    let at = place(parts, &part);
    if at < parts.len() {
        discard(part);
        return Ok(at as u8);
    }
    if at == MOST_PARTS {
        discard(part);
        return Err(Refused::Because(Refusal {
            number: TOO_MANY_PARTS,
            line: 0,
        }));
    }
    parts.push(part)?;
    Ok(at as u8)
}
