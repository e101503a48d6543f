//! Worked specifications, for tests: the text of an automaton, and rules over the atoms A, B and so on.
ghost use Rattle.std.specs.Prelude.{◌≡◌, ◌≤◌, ◌↔◌, IfOk, IsTrue};
ghost use Rattle.rv_model.specs.Formulas.{ltl, HasAtomsBelow};
ghost use Rattle.rv_reference.specs.Worked.{letter_names};

use rv_model::{Formula, Name, Names, Rule};
use std::alloc::{AllocError, Global};

/// The text of wip in the style of the kernel's own models (Linux, Documentation/trace/rv, monitor_wip.rst), which is not its canonical one.
pub const WIP_MODEL: &str = "digraph state_automaton {
\tcenter = true;
\tsize = \"7,11\";
\t{node [shape = circle] \"non_preemptive\"};
\t{node [shape = plaintext, style=invis, label=\"\"] \"__init_preemptive\"};
\t{node [shape = doublecircle] \"preemptive\"};
\t{node [shape = circle] \"preemptive\"};
\t\"__init_preemptive\" -> \"preemptive\";
\t\"non_preemptive\" [label = \"non_preemptive\"];
\t\"non_preemptive\" -> \"non_preemptive\" [ label = \"sched_waking\" ];
\t\"non_preemptive\" -> \"preemptive\" [ label = \"preempt_enable\" ];
\t\"preemptive\" [label = \"preemptive\", color = green3];
\t\"preemptive\" -> \"non_preemptive\" [ label = \"preempt_disable\" ];
\t{ rank = min ;
\t\t\"__init_preemptive\";
\t\t\"preemptive\";
\t}
}
";

/// Whether all atoms of the formula are below the number.
pub fn has_atoms_below(count: u8, formula: &Formula) -> bool
    ensures { IsTrue result ↔ HasAtomsBelow count (ltl formula.now) }
{
    match formula {
        Formula::True | Formula::False => true,
        Formula::Atom(atom) => *atom < count,
        Formula::Not(f) | Formula::Next(f) | Formula::Always(f) | Formula::Eventually(f) =>
            has_atoms_below(count, f),
        Formula::And(f, g)
        | Formula::Or(f, g)
        | Formula::Imply(f, g)
        | Formula::Equivalent(f, g)
        | Formula::Until(f, g)
        | Formula::Release(f, g)
        | Formula::WeakUntil(f, g) => { has_atoms_below(count, f) && has_atoms_below(count, g) }
    }
}

/// The names A, B and so on.
fn letter_names(alloc: Global, count: u8) -> Result<Names, AllocError>
    requires { count ≤ 26 }
    ensures { IfOk result (λ names. names ≡ letter_names count) }
{
    let mut names = Names::new(alloc);
    for k in 0..count {
        names.push(Name::new(alloc, &[65 + k])?)?;
    }
    Ok(names)
}

/// The rule with this formula, whose atoms are the first `count` of A, B and so on.
pub fn rule(alloc: Global, count: u8, formula: Formula) -> Result<Rule, AllocError>
    requires few { count ≤ 26 }
    requires in_range { HasAtomsBelow count (ltl formula) }
    ensures { IfOk result (λ rule. rule ≡ record { atoms = letter_names count; formula = ltl formula }) }
{
    let atoms = letter_names(alloc, count)?;
    Ok(Rule { atoms, formula })
}
