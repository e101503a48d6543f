//! From a specification's file to its printed table.
ghost use Rattle.std.specs.Prelude.{◌≡◌, ◌≤◌, IfOk};
ghost use Rattle.rv_text.specs.Readings.{Gives};
ghost use Rattle.rv_model.specs.Weights.{weight};
ghost use Rattle.rv_bind.specs.Outcomes.{ReadsOutcome, of_file};
ghost use Rattle.rv_bind.specs.Possible.{MayCome};
ghost use Rattle.rv_stream.specs.inner.Faults.{IsOutcome};
ghost use Rattle.rv_tool.specs.Possible.{MayTable};
ghost use Rattle.rv_tool.specs.Tables.{rule_text, table_text, table_in};

use rv_bind::{BindFault, read_file, refused};
use rv_dot::read_dot;
use rv_io::Store;
use rv_ltl::read_ltl;
use rv_model::{Rule, SpecKind};
use rv_nnf::normal;
use rv_report::{automaton_text, nodes_text};
use rv_tableau::tableau;
use rv_text::Refused;
use std::alloc::Global;

/// The table of an automaton file.
fn da_text(alloc: Global, bytes: &[u8]) -> Result<Vec<u8>, Refused>
    ensures { Gives (λ text. text.items) result (table_text SpecKind.Da bytes.now) }
{
    let automaton = read_dot(alloc, bytes)?;
    Ok(automaton_text(alloc, &automaton)?)
}

/// The table of a rule.
#[tactic(auto, using(rv_report::proofs::TableauLemmas::tableau_is_formula))]
fn rule_text(alloc: Global, rule: &Rule) -> Result<Vec<u8>, Refused>
    requires { weight rule.now.formula ≤ 1024 }
    ensures { Gives (λ text. text.items) result (rule_text rule.now) }
{
    let parts = normal(alloc, &rule.formula)?;
    let table = tableau(alloc, &parts)?;
    Ok(nodes_text(alloc, &rule.atoms, &table)?)
}

/// The table of a rule file.
fn ltl_text(alloc: Global, bytes: &[u8]) -> Result<Vec<u8>, Refused>
    ensures { Gives (λ text. text.items) result (table_text SpecKind.Ltl bytes.now) }
{
    let rule = read_ltl(alloc, bytes)?;
    rule_text(alloc, &rule)
}

/// The table of a specification's text.
fn table_text(alloc: Global, kind: SpecKind, bytes: &[u8]) -> Result<Vec<u8>, Refused>
    ensures { Gives (λ text. text.items) result (table_text kind bytes.now) }
{
    match kind {
        SpecKind::Da => da_text(alloc, bytes),
        SpecKind::Ltl => ltl_text(alloc, bytes),
    }
}

/// The same, with the file in its fault.
#[tactic(auto, using(crate::proofs::NumberLemmas::table_numbered, rv_stream::proofs::NumberLemmas::fault_tells))]
fn named_text(alloc: Global, kind: SpecKind, name: &str, bytes: &[u8]) -> Result<Vec<u8>, BindFault>
    ensures { IsOutcome (λ text. text.items) result (of_file name.now (table_text kind bytes.now)) }
{
    match table_text(alloc, kind, bytes) {
        Ok(text) => Ok(text),
        Err(fault) => Err(refused(alloc, name, fault)),
    }
}

/// The table of a file.
#[tactic(auto, using(rv_bind::proofs::OutcomeLemmas::fault_counted, crate::proofs::BlamesLemmas::table_named, crate::proofs::PossibleLemmas::table_unread, crate::proofs::PossibleLemmas::table_may))]
pub(crate) fn read_table<S: Store>(
    alloc: Global,
    store: &mut S,
    kind: SpecKind,
    name: &str,
) -> Result<Vec<u8>, BindFault>
    ensures reads { ReadsOutcome (λ text. text.items) (S.files store.old) (S.files store.new) (S.faults store.old) (S.faults store.new) result (λ files. table_in files kind name.now) }
    ensures some { MayCome (λ text. text.items) result (MayTable kind name.now) }
{
    let bytes = read_file(alloc, store, name)?;
    named_text(alloc, kind, name, bytes.as_slice())
}
