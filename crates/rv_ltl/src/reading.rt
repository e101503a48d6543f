//! A rule file's text as a rule, or the first refusal.

ghost use Rattle.std.specs.Prelude.{◌≡◌, ◌≤◌, ◌<◌, ◌+◌, ◌∷◌, ◌++◌, ℕ, List, [], length, map, IfOk, Some};
ghost use Rattle.std.specs.Cmp.Lexicographic.{slice_cmp};
ghost use Rattle.std.specs.Ordering.{nat_cmp};
ghost use Rattle.rv_text.specs.Readings.{Gives};
ghost use Rattle.rv_model.specs.Formulas.{IsRule, ltl};
ghost use Rattle.rv_model.specs.Weights.{weight};
ghost use Rattle.rv_ltl.specs.inner.Texts.{texts};
ghost use Rattle.rv_text.specs.inner.Ascending.{Ascends};
ghost use Rattle.rv_ltl.specs.Names.{names_of};
ghost use Rattle.rv_ltl.specs.inner.Machine.{defs, AllCoded};
ghost use Rattle.rv_ltl.specs.Atoms.{name_at};
ghost use Rattle.rv_ltl.specs.inner.Collected.{rule_over};
ghost use Rattle.rv_ltl.specs.RuleFile.{rule_in, ltl_of};
ghost use Rattle.rv_ltl.specs.inner.Rules.{AllNamed, ReadsDefinitions, of_unread};

use crate::building::build;
use crate::definitions::{Definition, definitions};
use crate::names::{find, names};
use crate::pieces::pieces;
use crate::replacing::{limited_atoms, refused};
use crate::words::tokens;
use rv_model::{Formula, Name, Names, Rule};
use rv_text::{LTL_SYNTAX, NO_RULE, Refused, Unread};
use std::alloc::{AllocError, Global};

/// The most bytes that a rule file may have.
pub const MAX_BYTES: usize = 1_048_576;

// The refusal of a text that could not be read.
fn refused_by(unread: Unread) -> Refused
    ensures { result ≡ of_unread unread }
{
    match unread {
        Unread::Memory => Refused::Memory,
        Unread::Syntax => refused(LTL_SYNTAX),
    }
}

/// The name of this number.
fn name_of<'a>(names: &[&'a [u8]], number: usize) -> &'a [u8]
    ensures { result.now ≡ name_at (texts names.now) number }
{
    if number < names.len() {
        names[number]
    } else {
        b"".as_slice()
    }
}

/// Puts a copy of the name behind the others.
fn put_name(alloc: Global, list: &mut Names, name: &[u8]) -> Result<(), AllocError>
    ensures { IfOk result (λ _. list.new ≡ list.old ++ name.now ∷ []) }
{
    let name = Name::new(alloc, name)?;
    list.push(name)?;
    Ok(())
}

/// The names of these numbers.
fn names_at(alloc: Global, names: &[&[u8]], numbers: &[usize]) -> Result<Names, AllocError>
    ensures { IfOk result (λ list. list ≡ map (name_at (texts names.now)) numbers.now) }
{
    let mut list = Names::new(alloc);
    'numbers: for number in numbers {
        put_name(alloc, &mut list, name_of(names, *number))?;
    }
    Ok(list)
}

fn assembled(atoms: Names, formula: Formula) -> Rule
    requires { IsRule (record { atoms = atoms; formula = ltl formula }) }
    ensures { result ≡ record { atoms = atoms; formula = ltl formula } }
{
    Rule { atoms, formula }
}

/// The rule of these atoms, with the formula that the name root stands for.
fn rule_over(
    alloc: Global,
    names: &[&[u8]],
    definitions: &[Definition],
    root: usize,
    atoms: &[usize],
) -> Result<Rule, AllocError>
    requires few { length atoms.now ≤ 32 }
    requires coded { AllCoded definitions.now }
    requires rule { IsRule (rule_over (texts names.now) (defs definitions.now) root atoms.now) }
    ensures { IfOk result (λ rule. rule ≡ rule_over (texts names.now) (defs definitions.now) root atoms.now) }
{
    let formula = build(alloc, definitions, atoms, definitions.len(), root)?;
    let list = names_at(alloc, names, atoms)?;
    Ok(assembled(list, formula))
}

/// The rule of the definitions.
fn rule_in(alloc: Global, names: &[&[u8]], definitions: &[Definition]) -> Result<Rule, Refused>
    requires ascending { Ascends (slice_cmp nat_cmp) (texts names.now) }
    requires coded { AllCoded definitions.now }
    requires named { AllNamed (length names.now) (defs definitions.now) }
    ensures { Gives (λ rule. rule) result (rule_in (texts names.now) (defs definitions.now)) }
{
    let Some(root) = find(names, b"RULE".as_slice()) else {
        return Err(refused(NO_RULE));
    };
    let atoms = limited_atoms(alloc, definitions, root)?;
    let rule = rule_over(alloc, names, definitions, root, &atoms)?;
    Ok(rule)
}

/// The definitions that the pieces spell.
fn definitions_in(
    alloc: Global,
    names: &[&[u8]],
    pieces: &[&[u8]],
) -> Result<Vec<Definition>, Unread>
    requires { texts names.now ≡ names_of (texts pieces.now) }
    ensures { ReadsDefinitions (texts pieces.now) (length names.now) result }
{
    let tokens = tokens(alloc, names, pieces)?;
    definitions(alloc, &tokens)
}

/// The rule that the text gives, or the first refusal. So its formula is never deep.
pub fn read_ltl(alloc: Global, bytes: &[u8]) -> Result<Rule, Refused>
    ensures gives { Gives (λ rule. rule) result (ltl_of bytes.now) }
    ensures light { IfOk result (λ rule. weight rule.formula ≤ 1024) }
{
    if bytes.len() > MAX_BYTES {
        return Err(refused(LTL_SYNTAX));
    }
    let pieces = match pieces(alloc, bytes) {
        Ok(pieces) => pieces,
        Err(unread) => return Err(refused_by(unread)),
    };
    let names = names(alloc, &pieces)?;
    let definitions = match definitions_in(alloc, &names, &pieces) {
        Ok(definitions) => definitions,
        Err(unread) => return Err(refused_by(unread)),
    };
    rule_in(alloc, &names, &definitions)
}
