//! From a specification's text to the specification, and the table that means it.
ghost use Rattle.std.specs.Prelude.{◌≤◌, IfOk};
ghost use Rattle.rv_text.specs.Readings.{Gives};
ghost use Rattle.rv_model.specs.declared.formula.Spec.TheVariants.{Ltl};
ghost use Rattle.rv_model.specs.Judging.{Means};
ghost use Rattle.rv_model.specs.Weights.{weight};
ghost use Rattle.rv_bind.specs.Compiling.{formula_table, compiled_of, Compiles};
ghost use Rattle.rv_model.specs.declared.kind.SpecKind.TheVariants as kinds;

use rv_dot::read_dot;
use rv_ltl::read_ltl;
use rv_model::{Rule, Spec, SpecKind};
use rv_nnf::normal;
use rv_table::Table;
use rv_tableau::{table_means_rule, tableau};
use rv_text::Refused;
use std::alloc::Global;

/// A specification, and the table that means it.
#[derive(Drop)]
pub(crate) struct Compiled {
    pub(crate) spec: Spec,
    pub(crate) table: Table,
}

fn compile_automaton(alloc: Global, text: &[u8]) -> Result<Compiled, Refused>
    ensures gives { Gives (λ compiled. compiled) result (compiled_of kinds.Da text.now) }
    ensures compiles { IfOk result (λ compiled. Compiles compiled.spec compiled.table) }
{
    let automaton = read_dot(alloc, text)?;
    let table = Table::from_automaton(alloc, &automaton)?;
    Ok(Compiled {
        spec: Spec::Da(automaton),
        table,
    })
}

fn rule_table(alloc: Global, rule: &Rule) -> Result<Table, Refused>
    requires { weight rule.now.formula ≤ 1024 }
    ensures gives { Gives (λ table. table) result (formula_table rule.now.formula) }
    ensures means { IfOk result (λ table. Means table (Ltl rule.now)) }
{
    let parts = normal(alloc, &rule.formula)?;
    table_means_rule();
    tableau(alloc, &parts)
}

fn compile_rule(alloc: Global, text: &[u8]) -> Result<Compiled, Refused>
    ensures gives { Gives (λ compiled. compiled) result (compiled_of kinds.Ltl text.now) }
    ensures compiles { IfOk result (λ compiled. Compiles compiled.spec compiled.table) }
{
    let rule = read_ltl(alloc, text)?;
    let table = rule_table(alloc, &rule)?;
    Ok(Compiled {
        spec: Spec::Ltl(rule),
        table,
    })
}

/// Reads a text of this kind as a specification, and makes its table. A refusal is the text's first one.
pub(crate) fn compile(alloc: Global, kind: SpecKind, text: &[u8]) -> Result<Compiled, Refused>
    ensures gives { Gives (λ compiled. compiled) result (compiled_of kind text.now) }
    ensures compiles { IfOk result (λ compiled. Compiles compiled.spec compiled.table) }
{
    match kind {
        SpecKind::Da => compile_automaton(alloc, text),
        SpecKind::Ltl => compile_rule(alloc, text),
    }
}
