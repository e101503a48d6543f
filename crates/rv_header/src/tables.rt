//! The C tables of an automaton.
ghost use Rattle.std.specs.Prelude.{◌≡◌, ◌++◌, IsTrue, OnOk, IfOk, map};
ghost use Rattle.rv_text.specs.Readings.{Gives};
ghost use Rattle.rv_dot.specs.Canonical.{quoted};
ghost use Rattle.rv_header.specs.Naming.{is_header_name};
ghost use Rattle.rv_header.specs.HeaderText.{tagged, list_text, struct_text, declarations, marks, tables, header_text, header_of};

use crate::members::{marks, name_at, put_enum, put_list, put_tagged, quoted};
use crate::naming::has_no_tables;
use crate::rows::put_rows;
use rv_model::{Automaton, Names};
use rv_text::{Line, NO_HEADER, Refusal, Refused};
use std::alloc::{AllocError, Global};

/// Appends a text, and a C name behind it.
fn put_behind(out: &mut Line, front: &[u8], name: &[u8], text: &[u8]) -> Result<(), AllocError>
    ensures { OnOk result (out.new ≡ out.old ++ front.now ++ tagged name.now text.now) }
{
    out.text(front)?;
    put_tagged(out, name, text)
}

/// Appends the type of the tables.
fn put_struct(out: &mut Line, name: &[u8]) -> Result<(), AllocError>
    ensures { OnOk result (out.new ≡ out.old ++ struct_text name.now) }
{
    put_behind(out, b"struct ", name, b"automaton")?;
    put_behind(out, b" {\n\tchar *state_names[", name, b"state_max")?;
    put_behind(out, b"];\n\tchar *event_names[", name, b"event_max")?;
    put_behind(out, b"];\n\tunsigned char function[", name, b"state_max")?;
    put_behind(out, b"][", name, b"event_max")?;
    put_behind(
        out,
        b"];\n\tunsigned char initial_state;\n\tbool final_states[",
        name,
        b"state_max",
    )?;
    out.text(b"];\n};\n")?;
    Ok(())
}

/// Appends the names and their type.
fn put_declarations(out: &mut Line, name: &[u8], automaton: &Automaton) -> Result<(), AllocError>
    ensures { OnOk result (out.new ≡ out.old ++ declarations name.now automaton.now) }
{
    put_enum(out, name, b"states", &automaton.states, b"state_max")?;
    put_behind(out, b"#define INVALID_STATE ", name, b"state_max")?;
    out.text(b"\n")?;
    put_enum(out, name, b"events", &automaton.events, b"event_max")?;
    put_struct(out, name)?;
    Ok(())
}

/// Appends a list of names, in quotes.
fn put_names(alloc: Global, out: &mut Line, names: &Names) -> Result<(), AllocError>
    ensures { OnOk result (out.new ≡ out.old ++ list_text (map quoted names.now)) }
{
    let members = quoted(alloc, names)?;
    put_list(out, &members)
}

/// Appends which states are marked.
fn put_marks(alloc: Global, out: &mut Line, automaton: &Automaton) -> Result<(), AllocError>
    ensures { OnOk result (out.new ≡ out.old ++ list_text (marks automaton.now)) }
{
    let members = marks(alloc, &automaton.states, automaton.marked)?;
    put_list(out, &members)
}

/// Appends the tables.
fn put_tables(
    alloc: Global,
    out: &mut Line,
    name: &[u8],
    automaton: &Automaton,
) -> Result<(), AllocError>
    ensures { OnOk result (out.new ≡ out.old ++ tables name.now automaton.now) }
{
    put_behind(out, b"static const struct ", name, b"automaton")?;
    put_behind(out, b" ", name, b"automaton")?;
    out.text(b" = {\n\t.state_names = ")?;
    put_names(alloc, out, &automaton.states)?;
    out.text(b",\n\t.event_names = ")?;
    put_names(alloc, out, &automaton.events)?;
    out.text(b",\n\t.function = {\n")?;
    put_rows(alloc, out, name, automaton)?;
    put_behind(
        out,
        b"\t},\n\t.initial_state = ",
        name,
        name_at(&automaton.states, 0),
    )?;
    out.text(b",\n\t.final_states = ")?;
    put_marks(alloc, out, automaton)?;
    out.text(b",\n};\n")?;
    Ok(())
}

/// The text of the tables.
#[tactic(auto, unfolding(crate::specs::HeaderText::header_text))]
pub(crate) fn written(
    alloc: Global,
    name: &[u8],
    automaton: &Automaton,
) -> Result<Vec<u8>, AllocError>
    ensures { IfOk result (λ text. text.items ≡ header_text name.now automaton.now) }
{
    let mut out = Line::new(alloc);
    put_declarations(&mut out, name, automaton)?;
    put_tables(alloc, &mut out, name, automaton)?;
    Ok(out.into_bytes())
}

/// The automaton's tables as C text, or the refusal of its names.
pub fn write_header(alloc: Global, name: &[u8], automaton: &Automaton) -> Result<Vec<u8>, Refused>
    requires { IsTrue (is_header_name name.now) }
    ensures { Gives (λ text. text.items) result (header_of name.now automaton.now) }
{
    if has_no_tables(automaton) {
        return Err(Refused::Because(Refusal::whole(NO_HEADER)));
    }
    Ok(written(alloc, name, automaton)?)
}
