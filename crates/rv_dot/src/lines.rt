//! The lines of a canonical text, each appended to a text that grows.
ghost use Rattle.std.specs.Prelude.{◌≡◌, ◌++◌, OnOk};
ghost use Rattle.rv_dot.specs.Canonical.{quoted, marker, drawn_shape, head_lines, marker_line, state_line, initial_line, node_line, arc_line, last_line};

use rv_text::Line;
use std::alloc::AllocError;

fn put(out: &mut Line, bytes: &[u8]) -> Result<(), AllocError>
    ensures { OnOk result (out.new ≡ out.old ++ bytes.now) }
{
    out.text(bytes)
}

/// Appends the name between quotes.
fn put_quoted(out: &mut Line, name: &[u8]) -> Result<(), AllocError>
    ensures { OnOk result (out.new ≡ out.old ++ quoted name.now) }
{
    put(out, b"\"")?;
    put(out, name)?;
    put(out, b"\"")
}

/// Appends the name of the initial state's marker between quotes.
fn put_marker(out: &mut Line, initial: &[u8]) -> Result<(), AllocError>
    ensures { OnOk result (out.new ≡ out.old ++ quoted (marker initial.now)) }
{
    put(out, b"\"__init_")?;
    put(out, initial)?;
    put(out, b"\"")
}

/// Appends the lines that every text begins with.
pub fn put_head(out: &mut Line) -> Result<(), AllocError>
    ensures { OnOk result (out.new ≡ out.old ++ head_lines) }
{
    put(
        out,
        b"digraph state_automaton {\n\tcenter = true;\n\tsize = \"7,11\";\n",
    )
}

/// Appends the declaration of the marker.
pub fn put_marker_line(out: &mut Line, initial: &[u8]) -> Result<(), AllocError>
    ensures { OnOk result (out.new ≡ out.old ++ marker_line initial.now) }
{
    put(
        out,
        b"\t{node [shape = plaintext, style=invis, label=\"\"] ",
    )?;
    put_marker(out, initial)?;
    put(out, b"};\n")
}

fn put_shape(out: &mut Line, is_marked: bool) -> Result<(), AllocError>
    ensures { OnOk result (out.new ≡ out.old ++ drawn_shape is_marked) }
{
    if is_marked {
        put(out, b"doublecircle")
    } else {
        put(out, b"circle")
    }
}

/// Appends the declaration of a state.
pub fn put_state_line(out: &mut Line, name: &[u8], is_marked: bool) -> Result<(), AllocError>
    ensures { OnOk result (out.new ≡ out.old ++ state_line (record { name = name.now; is_marked = is_marked })) }
{
    put(out, b"\t{node [shape = ")?;
    put_shape(out, is_marked)?;
    put(out, b"] ")?;
    put_quoted(out, name)?;
    put(out, b"};\n")?;
    Ok(())
}

/// Appends the edge from the marker.
pub fn put_initial_line(out: &mut Line, initial: &[u8]) -> Result<(), AllocError>
    ensures { OnOk result (out.new ≡ out.old ++ initial_line initial.now) }
{
    put(out, b"\t")?;
    put_marker(out, initial)?;
    put(out, b" -> ")?;
    put_quoted(out, initial)?;
    put(out, b";\n")
}

/// Appends the label of a state.
pub fn put_node_line(out: &mut Line, name: &[u8]) -> Result<(), AllocError>
    ensures { OnOk result (out.new ≡ out.old ++ node_line name.now) }
{
    put(out, b"\t")?;
    put_quoted(out, name)?;
    put(out, b" [label = ")?;
    put_quoted(out, name)?;
    put(out, b"];\n")
}

/// Appends an edge.
pub fn put_arc_line(out: &mut Line, from: &[u8], event: &[u8], to: &[u8]) -> Result<(), AllocError>
    ensures { OnOk result (out.new ≡ out.old ++ arc_line (record { from = from.now; event = event.now; to = to.now })) }
{
    put(out, b"\t")?;
    put_quoted(out, from)?;
    put(out, b" -> ")?;
    put_quoted(out, to)?;
    put(out, b" [ label = ")?;
    put_quoted(out, event)?;
    put(out, b" ];\n")
}

/// Appends the last line.
pub fn put_last(out: &mut Line) -> Result<(), AllocError>
    ensures { OnOk result (out.new ≡ out.old ++ last_line) }
{
    put(out, b"}\n")
}
