//! What an `on` line brings: an automaton's event, what becomes of a rule's atoms, or nothing where it is an end.
ghost use Rattle.std.specs.Prelude.{◌≡◌, ◌≤◌, ◌<◌, ◌+◌, ◌*◌, ◌^◌, ◌||◌, ℕ, List, length, if◌then◌else◌, IfOk, is_some};
ghost use Rattle.std.specs.List.{list_all, list_any};
ghost use Rattle.rv_ltl.specs.inner.Texts.{texts};
ghost use Rattle.rv_bind.specs.inner.LineReads.{ReadsValue};
ghost use Rattle.rv_bind.specs.Changes.{is_sign, is_change, atom_in, is_signed_name, stands_twice, runs_its_event, is_one, allows_what, may_end, allows_hit, atoms_signed, are_known, atoms_change, event_what, event_of, what_of, brought, place_named, bit_at_place, atom_bit};

use crate::bound::place_in;
use crate::fault::LineFault;
use crate::words::SYNTAX;
use rv_model::{Automaton, Mode, Names, Rule, Scope, Spec, What};
use rv_text::{UNKNOWN_ATOM, UNKNOWN_EVENT};
use std::alloc::{AllocError, Global};
use std::collections::BTreeSet;

fn is_sign(byte: u8) -> bool
    ensures { result ≡ is_sign byte }
{
    byte == b'+' || (byte == b'-' || byte == b'*')
}

fn is_change(word: &[u8]) -> bool
    ensures { result ≡ is_change word.now }
{
    match word {
        [sign, _, ..] => is_sign(*sign),
        _ => false,
    }
}

/// The atom's name, which is the word without its sign.
fn atom_in(word: &[u8]) -> &[u8]
    ensures { result.now ≡ atom_in word.now }
{
    match word {
        [_, name @ ..] => name,
        [] => word,
    }
}

/// Whether the word is this sign and the atom's name.
fn is_signed_name(sign: u8, atom: &[u8], word: &[u8]) -> bool
    ensures { result ≡ is_signed_name sign atom.now word.now }
{
    match word {
        [first, name @ ..] => *first == sign && name == atom,
        [] => false,
    }
}

fn are_changes(words: &[&[u8]]) -> bool
    ensures { result ≡ list_all is_change (texts words.now) }
{
    let mut rest = words;
    while let [word, others @ ..] = rest {
        if !is_change(word) {
            return false;
        }
        rest = others;
    }
    true
}

/// Whether two of the words change one atom, whatever their signs.
fn stands_twice(alloc: Global, words: &[&[u8]]) -> Result<bool, AllocError>
    ensures { IfOk result (λ twice. twice ≡ stands_twice (texts words.now)) }
{
    let mut names = BTreeSet::new(alloc);
    let mut rest = words;
    while let [word, others @ ..] = rest {
        if !names.insert(atom_in(word))? {
            return Ok(true);
        }
        rest = others;
    }
    Ok(false)
}

fn runs_its_event(mode: Mode) -> bool
    ensures { result ≡ runs_its_event mode }
{
    match mode {
        Mode::Event | Mode::StartRun => true,
        Mode::Start | Mode::End => false,
    }
}

fn is_one(words: &[&[u8]]) -> bool
    ensures { result ≡ is_one (texts words.now) }
{
    match words {
        [_] => true,
        _ => false,
    }
}

/// Whether the words are what the specification takes in a mode that is no end.
fn allows_what(alloc: Global, spec: &Spec, mode: Mode, words: &[&[u8]]) -> Result<bool, AllocError>
    ensures { IfOk result (λ allowed. allowed ≡ allows_what spec.now mode (texts words.now)) }
{
    match spec {
        Spec::Da(_) => Ok(is_one(words)),
        Spec::Ltl(_) => {
            if !runs_its_event(mode) || !are_changes(words) {
                return Ok(false);
            }
            let twice = stands_twice(alloc, words)?;
            Ok(!twice)
        }
    }
}

fn may_end(scope: Scope) -> bool
    ensures { result ≡ may_end scope }
{
    match scope {
        Scope::Task => true,
        Scope::Global | Scope::Cpu => false,
    }
}

/// Whether a rule of the scope and the specification may have the mode and the words.
pub(crate) fn allows_hit(
    alloc: Global,
    scope: Scope,
    spec: &Spec,
    mode: Mode,
    words: &[&[u8]],
) -> Result<bool, AllocError>
    ensures { IfOk result (λ allowed. allowed ≡ allows_hit scope spec.now mode (texts words.now)) }
{
    if mode.is_end() {
        return Ok(may_end(scope) && words.is_empty());
    }
    allows_what(alloc, spec, mode, words)
}

fn bit(index: usize) -> u32
    requires { index < 32 }
    ensures { result ≡ 2 ^ index }
{
    1 << index
}

/// Whether one of the words is this sign and the atom's name.
fn any_says(sign: u8, atom: &[u8], words: &[&[u8]]) -> bool
    ensures { result ≡ list_any (is_signed_name sign atom.now) (texts words.now) }
{
    let mut rest = words;
    while let [word, others @ ..] = rest {
        if is_signed_name(sign, atom, word) {
            return true;
        }
        rest = others;
    }
    false
}

/// The set, which gains the bit at `index`, above all its own, if `is_in` says so.
fn with_place(set: u32, index: usize, is_in: bool) -> u32
    requires index { index < 32 }
    requires below { set < 2 ^ index }
    ensures { result ≡ (if is_in then 1 else 0) * 2 ^ index + set }
{
    if is_in { bit(index) + set } else { set }
}

/// The set of the atoms that a word names with this sign, a bit for each atom's index.
fn atoms_signed(sign: u8, atoms: &Names, words: &[&[u8]]) -> u32
    requires { length atoms.now ≤ 32 }
    ensures { result ≡ atoms_signed sign atoms.now (texts words.now) }
{
    let mut set = 0;
    for place in 0..atoms.len() {
        let is_in = any_says(sign, atoms.get(place).bytes(), words);
        set = with_place(set, place, is_in);
    }
    set
}

fn names_one(atoms: &Names, word: &[u8]) -> bool
    ensures { result ≡ is_some (place_named atoms.now (atom_in word.now)) }
{
    place_in(atoms, atom_in(word)).is_some()
}

/// Whether each word names an atom of the rule.
fn are_known(atoms: &Names, words: &[&[u8]]) -> bool
    ensures { result ≡ are_known atoms.now (texts words.now) }
{
    let mut rest = words;
    while let [word, others @ ..] = rest {
        if !names_one(atoms, word) {
            return false;
        }
        rest = others;
    }
    true
}

/// The atoms that go on, that go off, and that are true for the event alone. An unknown one is refused.
fn atoms_change(rule: &Rule, words: &[&[u8]]) -> Result<What, LineFault>
    ensures { ReadsValue (λ what. what) result (atoms_change rule.now.atoms (texts words.now)) }
{
    let atoms = &rule.atoms;
    if !are_known(atoms, words) {
        return Err(LineFault::Number(UNKNOWN_ATOM));
    }
    Ok(What::Ltl {
        on: atoms_signed(b'+', atoms, words),
        off: atoms_signed(b'-', atoms, words),
        pulse: atoms_signed(b'*', atoms, words),
    })
}

/// The event of this name, by its index. An unknown one is refused.
fn event_named(automaton: &Automaton, name: &[u8]) -> Result<What, LineFault>
    ensures { ReadsValue (λ what. what) result (event_what (place_named automaton.now.events name.now)) }
{
    match place_in(&automaton.events, name) {
        Some(index) => Ok(What::Da { event: index as u8 }),
        None => Err(LineFault::Number(UNKNOWN_EVENT)),
    }
}

/// The event that the one word names. No word, or a second, is refused as a line without a form.
fn event_of(automaton: &Automaton, words: &[&[u8]]) -> Result<What, LineFault>
    ensures { ReadsValue (λ what. what) result (event_of automaton.now.events (texts words.now)) }
{
    match words {
        [word] => event_named(automaton, word),
        _ => Err(SYNTAX),
    }
}

fn what_of(spec: &Spec, words: &[&[u8]]) -> Result<What, LineFault>
    ensures { ReadsValue (λ what. what) result (what_of spec.now (texts words.now)) }
{
    match spec {
        Spec::Da(automaton) => event_of(automaton, words),
        Spec::Ltl(rule) => atoms_change(rule, words),
    }
}

/// What a hit brings: an end nothing, and any other what its words say. An unknown event or atom is refused.
pub(crate) fn brought(spec: &Spec, mode: Mode, words: &[&[u8]]) -> Result<What, LineFault>
    ensures { ReadsValue (λ what. what) result (brought spec.now mode (texts words.now)) }
{
    if mode.is_end() {
        return Ok(What::Nothing);
    }
    what_of(spec, words)
}

fn bit_of(rule: &Rule, atom: &[u8]) -> Result<u32, LineFault>
    ensures { ReadsValue (λ bit. bit) result (bit_at_place (place_named rule.now.atoms atom.now)) }
{
    match place_in(&rule.atoms, atom) {
        Some(index) => Ok(bit(index)),
        None => Err(LineFault::Number(UNKNOWN_ATOM)),
    }
}

/// The set of the atom of this name alone. An unknown atom is refused, and so is an automaton, which has none.
pub(crate) fn atom_bit(spec: &Spec, atom: &[u8]) -> Result<u32, LineFault>
    ensures { ReadsValue (λ bit. bit) result (atom_bit spec.now atom.now) }
{
    match spec {
        Spec::Da(_) => Err(SYNTAX),
        Spec::Ltl(rule) => bit_of(rule, atom),
    }
}
