//! From a bindings file, and the files that it names, to bindings with tables.
ghost use Rattle.std.specs.Prelude.{IfOk, IsTrue, OnOk};
ghost use Rattle.rv_text.specs.TextLines.{line_text, lines_of};
ghost use Rattle.rv_bind.specs.LineWords.{is_name};
ghost use Rattle.rv_bind.specs.inner.LineReads.{ReadsValue};
ghost use Rattle.rv_bind.specs.Outcomes.{ReadsOutcome};
ghost use Rattle.rv_bind.specs.Bound.{bound_of, compiled_in, compiled_by, line_bound, lines_bound, nothing_bound, form_in, form_by, form_bound};
ghost use Rattle.rv_bind.specs.BoundTexts.{MayBoundText, bound_text_of, bound_text_value};
ghost use Rattle.rv_bind.specs.Possible.{MayBound, MayCome, MayFind, MayLine, MayLines};
ghost use Rattle.rv_bind.specs.BoundViews.{bound_value};
ghost use Rattle.rv_bind.specs.inner.FormViews.{IsNamed, form_value, monitor_said};
ghost use Rattle.rv_bind.specs.WellFormed.{IsWellFormed};

use crate::bindings::{Bound, BoundText};
use crate::fault::{BindFault, LineFault};
use crate::files::{in_line, read_file, read_spec};
use crate::forms::{Form, MonitorForm, read_form};
use crate::limits::TEXT_LIMIT;
use crate::words::SYNTAX;
use rv_io::Store;
use rv_text::{Cursor, TextLine};
use std::alloc::{AllocError, Global};

/// Reads the bindings of a file, line by line, and each specification when its line is reached. The first refusal or
/// unread file decides, and the fault names its file. The refusal of a specification has no line (0).
pub fn read_bindings<S: Store>(alloc: Global, store: &mut S, name: &str) -> Result<Bound, BindFault>
    ensures formed { IfOk result (λ bound. IsWellFormed (bound_value bound)) }
    ensures reads { ReadsOutcome bound_value (S.files store.old) (S.files store.new) (S.faults store.old) (S.faults store.new) result (λ files. bound_of files name.now) }
    ensures some { MayCome bound_value result (MayBound name.now) }
{
    let read = read_bindings_with_text(alloc, store, name)?;
    Ok(read.bound)
}

/// The same with the text of the file, from the one reading that the bindings are of.
pub fn read_bindings_with_text<S: Store>(
    alloc: Global,
    store: &mut S,
    name: &str,
) -> Result<BoundText, BindFault>
    ensures formed { IfOk result (λ read. IsWellFormed (bound_value read.bound)) }
    ensures reads { ReadsOutcome bound_text_value (S.files store.old) (S.files store.new) (S.faults store.old) (S.faults store.new) result (λ files. bound_text_of files name.now) }
    ensures bound { ReadsOutcome (λ read. bound_value read.bound) (S.files store.old) (S.files store.new) (S.faults store.old) (S.faults store.new) result (λ files. bound_of files name.now) }
    ensures some { MayCome bound_text_value result (MayBoundText name.now) }
{
    let text = read_file(alloc, store, name)?;
    let bound = bind_lines(alloc, store, name, text.as_slice())?;
    Ok(BoundText { text, bound })
}

/// The bindings that the lines of a text make, or the first fault, with the file `here` where it is a line's.
#[tactic(auto, using(crate::proofs::OutcomeLemmas::behind_counted, crate::proofs::ReachedLemmas::lines_begin, crate::proofs::ReachedLemmas::rest_named, crate::proofs::PossibleLemmas::lines_may))]
fn bind_lines<S: Store>(
    alloc: Global,
    store: &mut S,
    here: &str,
    text: &[u8],
) -> Result<Bound, BindFault>
    ensures formed { IfOk result (λ bound. IsWellFormed (bound_value bound)) }
    ensures reads { ReadsOutcome bound_value (S.files store.old) (S.files store.new) (S.faults store.old) (S.faults store.new) result (λ files. lines_bound files here.now nothing_bound (lines_of text.now)) }
    ensures some { MayCome bound_value result (MayLines here.now nothing_bound (lines_of text.now)) }
{
    let mut bound = Bound::new(alloc);
    let mut lines = Cursor::new(text);
    while let Some(line) = lines.next_line() {
        bind_line(alloc, store, here, &line, &mut bound)?;
    }
    Ok(bound)
}

/// The form of a line. One that ends past the limit has none, whatever it says.
fn form_in<'a>(alloc: Global, line: &TextLine<'a>) -> Result<Form<'a>, LineFault>
    ensures reads { ReadsValue form_value result (form_in (line_text line.now)) }
    ensures named { IfOk result (λ form. IsNamed (form_value form)) }
{
    if line.end > TEXT_LIMIT {
        return Err(SYNTAX);
    }
    read_form(alloc, line.bytes)
}

/// Adds what a line says to the bindings, or gives its fault with the file `here`.
#[tactic(auto, using(crate::proofs::OutcomeLemmas::line_goes_on, crate::proofs::PossibleLemmas::fault_may, crate::proofs::PossibleLemmas::goes_on_may, crate::proofs::ReachedLemmas::line_named, crate::proofs::ReachedLemmas::goes_on_named))]
fn bind_line<S: Store>(
    alloc: Global,
    store: &mut S,
    here: &str,
    line: &TextLine<'_>,
    bound: &mut Bound,
) -> Result<(), BindFault>
    requires { IsWellFormed (bound_value bound.old) }
    ensures formed { OnOk result (IsWellFormed (bound_value bound.new)) }
    ensures reads { ReadsOutcome (λ done. bound_value bound.new) (S.files store.old) (S.files store.new) (S.faults store.old) (S.faults store.new) result (λ files. line_bound files here.now (bound_value bound.old) (line_text line.now)) }
    ensures some { MayCome (λ done. bound_value bound.new) result (MayLine here.now (bound_value bound.old) (line_text line.now)) }
{
    match form_in(alloc, line) {
        Ok(form) => bind_form(alloc, store, here, line.number, bound, form),
        Err(fault) => in_line(alloc, here, line.number, Err(fault)),
    }
}

/// Adds what a form says to the bindings, or gives its fault with the file `here` and the line.
#[tactic(auto, using(crate::proofs::NumberLemmas::container_numbered, crate::proofs::NumberLemmas::rule_numbered, crate::proofs::NumberLemmas::change_numbered, crate::proofs::NumberLemmas::begin_numbered, crate::proofs::OutcomeLemmas::line_comes, crate::proofs::OutcomeLemmas::line_done, crate::proofs::OutcomeLemmas::none_counted, crate::proofs::PossibleLemmas::line_may, crate::proofs::PossibleLemmas::nothing_may, crate::proofs::ReachedLemmas::line_named))]
fn bind_form<S: Store>(
    alloc: Global,
    store: &mut S,
    here: &str,
    line: u32,
    bound: &mut Bound,
    form: Form<'_>,
) -> Result<(), BindFault>
    requires formed { IsWellFormed (bound_value bound.old) }
    requires named { IsNamed (form_value form) }
    ensures formed { OnOk result (IsWellFormed (bound_value bound.new)) }
    ensures reads { ReadsOutcome (λ done. bound_value bound.new) (S.files store.old) (S.files store.new) (S.faults store.old) (S.faults store.new) result (λ files. form_bound files here.now line (bound_value bound.old) (form_value form.entry)) }
    ensures some { MayCome (λ done. bound_value bound.new) result (MayFind (λ text. form_by (compiled_by text) here.now line (bound_value bound.old) (form_value form.entry))) }
{
    match form {
        Form::Skipped => Ok(()),
        Form::Container { name } => in_line(alloc, here, line, bound.add_container(alloc, name)),
        Form::Monitor(form) => bind_monitor(alloc, store, here, line, bound, form),
        Form::On(on) => in_line(alloc, here, line, bound.add_rule(alloc, on)),
        Form::React { monitor, reactor } => in_line(
            alloc,
            here,
            line,
            bound.choose(monitor, reactor),
        ),
        Form::Off { monitor } => in_line(alloc, here, line, bound.disable(monitor)),
        Form::Begin { monitor, atom } => in_line(alloc, here, line, bound.begin(monitor, atom)),
    }
}

/// Adds a monitor to the bindings. Its specification is read only where there is room for it.
#[tactic(auto, using(crate::proofs::NumberLemmas::place_numbered, crate::proofs::OutcomeLemmas::line_fault, crate::proofs::OutcomeLemmas::none_counted, crate::proofs::OutcomeLemmas::fault_counted, crate::proofs::PossibleLemmas::fault_may, crate::proofs::PossibleLemmas::monitor_may, crate::proofs::PossibleLemmas::monitor_fails, crate::proofs::ReachedLemmas::line_named, crate::proofs::ReachedLemmas::monitor_named))]
fn bind_monitor<S: Store>(
    alloc: Global,
    store: &mut S,
    here: &str,
    line: u32,
    bound: &mut Bound,
    form: MonitorForm<'_>,
) -> Result<(), BindFault>
    requires formed { IsWellFormed (bound_value bound.old) }
    requires named { IsTrue (is_name form.name.now) }
    ensures formed { OnOk result (IsWellFormed (bound_value bound.new)) }
    ensures reads { ReadsOutcome (λ done. bound_value bound.new) (S.files store.old) (S.files store.new) (S.faults store.old) (S.faults store.new) result (λ files. monitor_said (compiled_in files) here.now line (bound_value bound.old) form.entry) }
    ensures some { MayCome (λ done. bound_value bound.new) result (MayFind (λ text. monitor_said (compiled_by text) here.now line (bound_value bound.old) form.entry)) }
{
    let container = match bound.place_for(form.name, form.holder) {
        Ok(container) => container,
        Err(fault) => return in_line(alloc, here, line, Err(fault)),
    };
    let compiled = read_spec(alloc, store, form.kind, form.file)?;
    match bound.add_monitor(alloc, form, container, compiled) {
        Ok(()) => Ok(()),
        Err(AllocError) => Err(BindFault::Memory),
    }
}
