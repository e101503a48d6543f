//! Lists of C names, and how they are written.
ghost use Rattle.std.specs.Prelude.{◌≡◌, ◌++◌, ◌∷◌, [], codes, map, IfOk, OnOk, slice_index_or, ◌<◌, length, drop};
ghost use Rattle.std.specs.List.{flat_map};
ghost use Rattle.rv_dot.specs.Canonical.{quoted, states_marked};
ghost use Rattle.rv_header.specs.HeaderText.{tagged, enumerators, enum_text, list_text, mark_text};

use rv_model::{Name, Names};
use rv_text::Line;
use std::alloc::{AllocError, Global};

/// The name at this place, or none.
pub(crate) fn name_at(names: &Names, place: usize) -> &[u8]
    ensures { result.now ≡ slice_index_or names.now place [] }
{
    if place < names.len() {
        names.get(place).bytes()
    } else {
        b""
    }
}

/// Appends a C name.
pub(crate) fn put_tagged(out: &mut Line, name: &[u8], text: &[u8]) -> Result<(), AllocError>
    ensures { OnOk result (out.new ≡ out.old ++ tagged name.now text.now) }
{
    out.text(text)?;
    out.text(b"_")?;
    out.text(name)
}

/// Appends a name between quotes.
pub(crate) fn put_quoted(out: &mut Line, text: &[u8]) -> Result<(), AllocError>
    ensures { OnOk result (out.new ≡ out.old ++ quoted text.now) }
{
    out.text(b"\"")?;
    out.text(text)?;
    out.text(b"\"")
}

/// The names between quotes.
#[tactic(auto, using(crate::proofs::ListSteps::cut_none))]
pub(crate) fn quoted(alloc: Global, names: &Names) -> Result<Names, AllocError>
    ensures { IfOk result (λ made. made ≡ map quoted names.now) }
{
    let mut made = Names::new(alloc);
    let mut place = 0;
    'names: while place < names.len() {
        let mut text = Line::new(alloc);
        put_quoted(&mut text, names.get(place).bytes())?;
        made.push(Name::new(alloc, text.bytes())?)?;
        place += 1;
    }
    Ok(made)
}

/// The name's mark.
fn mark(is_marked: bool) -> &'static [u8]
    ensures { result.now ≡ mark_text is_marked }
{
    if is_marked { b"1" } else { b"0" }
}

/// The marks of the states.
#[tactic(auto, using(crate::proofs::ListSteps::cut_none))]
pub(crate) fn marks(alloc: Global, states: &Names, marked: u32) -> Result<Names, AllocError>
    ensures { IfOk result (λ made. made ≡ map (λ s. mark_text s.is_marked) (states_marked marked states.now)) }
{
    let mut made = Names::new(alloc);
    let mut place = 0;
    let mut bits = marked;
    'states: while place < states.len() {
        made.push(Name::new(alloc, mark(bits % 2 == 1))?)?;
        bits /= 2;
        place += 1;
    }
    Ok(made)
}

/// Appends the members behind the first one.
#[tactic(auto, using(crate::proofs::ListSteps::cut_none))]
fn put_later(out: &mut Line, members: &Names) -> Result<(), AllocError>
    requires { 0 < length members.now }
    ensures { OnOk result (out.new ≡ out.old ++ flat_map (λ text. codes ", " ++ text) (drop 1 members.now)) }
{
    let mut place = 1;
    'members: while place < members.len() {
        out.text(b", ")?;
        out.text(members.get(place).bytes())?;
        place += 1;
    }
    Ok(())
}

/// Appends a list.
pub(crate) fn put_list(out: &mut Line, members: &Names) -> Result<(), AllocError>
    ensures { OnOk result (out.new ≡ out.old ++ list_text members.now) }
{
    if members.len() == 0 {
        return out.text(b"{ }");
    }
    out.text(b"{ ")?;
    out.text(members.get(0).bytes())?;
    put_later(out, members)?;
    out.text(b" }")
}

/// Appends the C names behind the first one.
#[tactic(auto, using(crate::proofs::ListSteps::cut_none))]
fn put_later_names(out: &mut Line, name: &[u8], members: &Names) -> Result<(), AllocError>
    requires { 0 < length members.now }
    ensures { OnOk result (out.new ≡ out.old ++ flat_map (λ text. codes ",\n\t" ++ tagged name.now text) (drop 1 members.now)) }
{
    let mut place = 1;
    'members: while place < members.len() {
        out.text(b",\n\t")?;
        put_tagged(out, name, members.get(place).bytes())?;
        place += 1;
    }
    Ok(())
}

/// Appends the names of an enumeration, of which the last is how many there are.
fn put_enumerators(
    out: &mut Line,
    name: &[u8],
    members: &Names,
    most: &[u8],
) -> Result<(), AllocError>
    ensures { OnOk result (out.new ≡ out.old ++ enumerators name.now (members.now ++ most.now ∷ [])) }
{
    if members.len() == 0 {
        put_tagged(out, name, most)?;
        out.text(b" = 0")?;
        return Ok(());
    }
    put_tagged(out, name, members.get(0).bytes())?;
    out.text(b" = 0")?;
    put_later_names(out, name, members)?;
    out.text(b",\n\t")?;
    put_tagged(out, name, most)?;
    Ok(())
}

/// Appends an enumeration.
pub(crate) fn put_enum(
    out: &mut Line,
    name: &[u8],
    kind: &[u8],
    members: &Names,
    most: &[u8],
) -> Result<(), AllocError>
    ensures { OnOk result (out.new ≡ out.old ++ enum_text name.now kind.now (members.now ++ most.now ∷ [])) }
{
    out.text(b"enum ")?;
    put_tagged(out, name, kind)?;
    out.text(b" {\n\t")?;
    put_enumerators(out, name, members, most)?;
    out.text(b"\n};\n")
}
