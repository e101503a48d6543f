//! The printed table of a formula.
ghost use Rattle.std.specs.Prelude.{◌≡◌, ◌++◌, ◌<◌, ◌-◌, length, IfOk, OnOk, codes, flat_map};
ghost use Rattle.rv_model.specs.Formulas.{ltl};
ghost use Rattle.rv_table.specs.Rows.{HasNode, node_in};
ghost use Rattle.rv_report.specs.FormulaTexts.{is_single, parenthesis, operator_text, formula_text, labels_text, further_text, member_text, rows_text, row_labels, formula_row_text, sizes_text, nodes_text, IsFormulaTable};

use crate::names::put_name;
use crate::numbers::put_text_number;
use rv_model::{Formula, Names, has_bit};
use rv_table::Table;
use rv_text::Line;
use std::alloc::{AllocError, Global};

/// Whether it is a constant or a name.
fn is_single(formula: &Formula) -> bool
    ensures { result ≡ is_single (ltl formula.now) }
{
    matches!(formula, Formula::True | Formula::False | Formula::Atom(_))
}

/// Appends a parenthesis beside an operand, unless that is a constant or a name.
fn put_parenthesis(out: &mut Line, mark: &[u8], formula: &Formula) -> Result<(), AllocError>
    ensures { OnOk result (out.new ≡ out.old ++ parenthesis mark.now (ltl formula.now)) }
{
    if is_single(formula) {
        Ok(())
    } else {
        out.text(mark)
    }
}

/// Its operator, with the blanks that it has around it.
fn operator(formula: &Formula) -> &'static [u8]
    ensures { result.now ≡ operator_text (ltl formula.now) }
{
    match formula {
        Formula::True | Formula::False | Formula::Atom(_) => b"",
        Formula::Not(_) => b"not ",
        Formula::Next(_) => b"next ",
        Formula::Always(_) => b"always ",
        Formula::Eventually(_) => b"eventually ",
        Formula::And(_, _) => b" and ",
        Formula::Or(_, _) => b" or ",
        Formula::Imply(_, _) => b" imply ",
        Formula::Equivalent(_, _) => b" equivalent ",
        Formula::Until(_, _) => b" until ",
        Formula::Release(_, _) => b" release ",
        Formula::WeakUntil(_, _) => b" weak_until ",
    }
}

/// A formula, whose operands stand in parentheses unless they are constants or names.
fn put_formula(out: &mut Line, atoms: &Names, formula: &Formula) -> Result<(), AllocError>
    ensures { OnOk result (out.new ≡ out.old ++ formula_text atoms.now (ltl formula.now)) }
{
    match formula {
        Formula::True => out.text(b"true"),
        Formula::False => out.text(b"false"),
        Formula::Atom(atom) => put_name(out, atoms, *atom as usize),
        Formula::Not(f) | Formula::Next(f) | Formula::Always(f) | Formula::Eventually(f) => {
            out.text(operator(formula))?;
            put_parenthesis(out, b"(", f)?;
            put_formula(out, atoms, f)?;
            put_parenthesis(out, b")", f)
        }
        Formula::And(f, g)
        | Formula::Or(f, g)
        | Formula::Imply(f, g)
        | Formula::Equivalent(f, g)
        | Formula::Until(f, g)
        | Formula::Release(f, g)
        | Formula::WeakUntil(f, g) => {
            put_parenthesis(out, b"(", f)?;
            put_formula(out, atoms, f)?;
            put_parenthesis(out, b")", f)?;
            out.text(operator(formula))?;
            put_parenthesis(out, b"(", g)?;
            put_formula(out, atoms, g)?;
            put_parenthesis(out, b")", g)
        }
    }
}

/// A label behind another one.
fn put_further(out: &mut Line, atoms: &Names, formula: &Formula) -> Result<(), AllocError>
    ensures { OnOk result (out.new ≡ out.old ++ further_text atoms.now (ltl formula.now)) }
{
    out.text(b"; ")?;
    put_formula(out, atoms, formula)
}

/// The labels of a row.
#[tactic(auto, using(crate::proofs::GrowingTexts::first_label, crate::proofs::GrowingTexts::more_labels))]
pub fn put_labels(out: &mut Line, atoms: &Names, table: &Table, row: u32) -> Result<(), AllocError>
    requires { HasNode table.now row }
    ensures { OnOk result (out.new ≡ out.old ++ labels_text atoms.now (node_in table.now row).labels) }
{
    let count = table.labels(row);
    if count > 0 {
        put_formula(out, atoms, table.label(row, 0))?;
        'places: for place in 1..count {
            put_further(out, atoms, table.label(row, place))?;
        }
    }
    Ok(())
}

/// A row, where it is in the set.
fn put_member(out: &mut Line, set: u32, row: u32) -> Result<(), AllocError>
    requires { row < 32 }
    ensures { OnOk result (out.new ≡ out.old ++ member_text set row) }
{
    if has_bit(set as u64, row as usize) {
        out.text(b" ")?;
        out.number(row as u64)
    } else {
        Ok(())
    }
}

/// Each row of the set, ascending, behind a blank.
#[tactic(auto, using(crate::proofs::GrowingTexts::none_numbered, crate::proofs::GrowingTexts::more_numbered))]
fn put_rows(out: &mut Line, set: u32) -> Result<(), AllocError>
    ensures { OnOk result (out.new ≡ out.old ++ rows_text set) }
{
    'rows: for row in 0..32u32 {
        put_member(out, set, row)?;
    }
    Ok(())
}

/// The labels of a row besides row 0.
fn put_row_labels(out: &mut Line, atoms: &Names, table: &Table, row: u32) -> Result<(), AllocError>
    requires { HasNode table.now row }
    ensures { OnOk result (out.new ≡ out.old ++ row_labels atoms.now row (node_in table.now row).labels) }
{
    if row > 0 {
        out.text(b"[")?;
        put_labels(out, atoms, table, row)?;
        out.text(b"] ")?;
    }
    Ok(())
}

/// A line: the row, its labels, and the rows that may come next.
fn put_row(out: &mut Line, atoms: &Names, table: &Table, row: u32) -> Result<(), AllocError>
    requires { HasNode table.now row }
    ensures { OnOk result (out.new ≡ out.old ++ formula_row_text atoms.now table.now row) }
{
    out.number(row as u64)?;
    out.text(b" ")?;
    put_row_labels(out, atoms, table, row)?;
    out.text(b"->")?;
    put_rows(out, table.next(row))?;
    out.text(b"\n")
}

/// How many nodes and atoms there are.
fn put_sizes(out: &mut Line, nodes: u32, atoms: usize) -> Result<(), AllocError>
    ensures { OnOk result (out.new ≡ out.old ++ sizes_text nodes atoms) }
{
    put_text_number(out, b"nodes ", nodes as u64)?;
    put_text_number(out, b", atoms ", atoms as u64)?;
    out.text(b"\n")
}

/// Appends the table: row 0, and then the nodes in order.
#[tactic(auto, using(crate::proofs::GrowingTexts::none_numbered, crate::proofs::GrowingTexts::more_numbered))]
fn put_nodes(out: &mut Line, atoms: &Names, table: &Table) -> Result<(), AllocError>
    requires { IsFormulaTable table.now }
    ensures { OnOk result (out.new ≡ out.old ++ nodes_text atoms.now table.now) }
{
    let count = table.rows();
    put_sizes(out, count, atoms.len())?;
    'nodes: for row in 0..count + 1 {
        put_row(out, atoms, table, row)?;
    }
    Ok(())
}

/// The table of a rule with these atoms, for people to read: what `rv table ltl` prints.
///
/// The first line is as `nodes 3, atoms 2`, and the next as `0 -> 1 2`: row 0, where runs begin,
/// and the rows that may come next, ascending. Then each node has a line as `2 [A; not B] -> 3`,
/// with its labels in the brackets. An atom without a name is shown as no text.
pub fn nodes_text(alloc: Global, atoms: &Names, table: &Table) -> Result<Vec<u8>, AllocError>
    requires { IsFormulaTable table.now }
    ensures { IfOk result (λ text. text.items ≡ nodes_text atoms.now table.now) }
{
    let mut line = Line::new(alloc);
    put_nodes(&mut line, atoms, table)?;
    Ok(line.into_bytes())
}
