//! A bindings line by its form (docs/FORMATS.md, "Bindings").
ghost use Rattle.std.specs.Prelude.{◌≡◌, ◌∷◌, option_copied, IfOk};
ghost use Rattle.rv_ltl.specs.inner.Texts.{texts};
ghost use Rattle.rv_text.specs.Words.{words_of};
ghost use Rattle.rv_bind.specs.inner.LineReads.{ReadsValue, ReadsOn};
ghost use Rattle.rv_bind.specs.Forms.{container_form, monitor_form, holder_at, react_form, off_form, begin_form, by_at, tests_at, on, form_of};
ghost use Rattle.rv_bind.specs.inner.FormsAhead.{form_behind, change_form, hit_at, hit_read, on_read, with_next, test_next};
ghost use Rattle.rv_bind.specs.inner.FormViews.{form_value};

use crate::bindings::Test;
use crate::fault::LineFault;
use crate::words::{
    SYNTAX, allowed, end, is, is_field, is_name, kind, mode, reactor, scope, test, text, word,
};
use rv_model::{Mode, Reactor, Scope, SpecKind};
use rv_text::Words;
use std::alloc::{AllocError, Global};

/// What a line says. Names are borrowed from the line, and not looked up.
#[derive(Drop)]
pub(crate) enum Form<'a> {
    /// A line without a word, or one that begins with `#`.
    Skipped,
    Container { name: &'a [u8] },
    Monitor(MonitorForm<'a>),
    On(OnForm<'a>),
    React { monitor: &'a [u8], reactor: Reactor },
    Off { monitor: &'a [u8] },
    Begin { monitor: &'a [u8], atom: &'a [u8] },
}

/// What a monitor's line says: what is watched, and by which specification.
#[derive(Drop)]
pub(crate) struct MonitorForm<'a> {
    pub(crate) name: &'a [u8],
    pub(crate) scope: Scope,
    pub(crate) kind: SpecKind,
    pub(crate) file: &'a str,
    /// The container's name, if one is given.
    pub(crate) holder: Option<&'a [u8]>,
}

/// What an `on` line says: which lines hit which instance, and how.
#[derive(Drop)]
pub(crate) struct OnForm<'a> {
    pub(crate) monitor: &'a [u8],
    pub(crate) event: &'a [u8],
    pub(crate) by: Option<&'a [u8]>,
    pub(crate) tests: Vec<Test>,
    pub(crate) mode: Mode,
    /// What is brought: an event, or in each word a change of an atom.
    pub(crate) words: Vec<&'a [u8]>,
}

/// The form of a line, or the refusal of one that has none.
pub(crate) fn read_form<'a>(alloc: Global, line: &'a [u8]) -> Result<Form<'a>, LineFault>
    ensures { ReadsValue form_value result (form_of (words_of line.now)) }
{
    let mut words = Words::new(line);
    let Some(first) = words.next_word() else {
        return Ok(Form::Skipped);
    };
    if first.starts_with("#".as_bytes()) {
        return Ok(Form::Skipped);
    }
    form_behind(alloc, first, &mut words)
}

/// The form of a line that begins with the word, which is no comment's.
fn form_behind<'a>(
    alloc: Global,
    first: &[u8],
    words: &mut Words<'a>,
) -> Result<Form<'a>, LineFault>
    ensures { ReadsValue form_value result (form_behind first.now words.old) }
{
    if is(first, "container") {
        container_line(words)
    } else if is(first, "monitor") {
        monitor_line(words)
    } else if is(first, "on") {
        on_line(alloc, words)
    } else {
        change_line(first, words)
    }
}

/// The form of a line that begins with the word and changes a monitor.
fn change_line<'a>(first: &[u8], words: &mut Words<'a>) -> Result<Form<'a>, LineFault>
    ensures { ReadsValue form_value result (change_form first.now words.old) }
{
    if is(first, "react") {
        react_line(words)
    } else if is(first, "off") {
        off_line(words)
    } else if is(first, "begin") {
        begin_line(words)
    } else {
        Err(SYNTAX)
    }
}

fn container_line<'a>(words: &mut Words<'a>) -> Result<Form<'a>, LineFault>
    ensures { ReadsValue form_value result (container_form words.old) }
{
    let name = word(words)?;
    let name = allowed(name, is_name(name))?;
    end(words)?;
    Ok(Form::Container { name })
}

fn off_line<'a>(words: &mut Words<'a>) -> Result<Form<'a>, LineFault>
    ensures { ReadsValue form_value result (off_form words.old) }
{
    let monitor = word(words)?;
    end(words)?;
    Ok(Form::Off { monitor })
}

fn begin_line<'a>(words: &mut Words<'a>) -> Result<Form<'a>, LineFault>
    ensures { ReadsValue form_value result (begin_form words.old) }
{
    let monitor = word(words)?;
    let atom = word(words)?;
    end(words)?;
    Ok(Form::Begin { monitor, atom })
}

/// The container's name, if the line goes on with `in`. Then the line has to end.
fn holder<'a>(words: &mut Words<'a>) -> Result<Option<&'a [u8]>, LineFault>
    ensures { ReadsValue option_copied result (holder_at words.old) }
{
    let Some(sign) = words.next_word() else {
        return Ok(None);
    };
    let _sign = allowed(sign, is(sign, "in"))?;
    let name = word(words)?;
    end(words)?;
    Ok(Some(name))
}

fn monitor_line<'a>(words: &mut Words<'a>) -> Result<Form<'a>, LineFault>
    ensures { ReadsValue form_value result (monitor_form words.old) }
{
    let name = word(words)?;
    let name = allowed(name, is_name(name))?;
    let said = word(words)?;
    let scope = scope(said)?;
    let said = word(words)?;
    let kind = kind(said)?;
    let said = word(words)?;
    let file = text(said)?;
    let holder = holder(words)?;
    Ok(Form::Monitor(MonitorForm {
        name,
        scope,
        kind,
        file,
        holder,
    }))
}

fn react_line<'a>(words: &mut Words<'a>) -> Result<Form<'a>, LineFault>
    ensures { ReadsValue form_value result (react_form words.old) }
{
    let monitor = word(words)?;
    let said = word(words)?;
    let reactor = reactor(said)?;
    end(words)?;
    Ok(Form::React { monitor, reactor })
}

fn on_line<'a>(alloc: Global, words: &mut Words<'a>) -> Result<Form<'a>, LineFault>
    ensures { ReadsValue form_value result (on_read words.old) }
{
    let monitor = word(words)?;
    let event = word(words)?;
    let event = allowed(event, !is(event, ":"))?;
    let (by, next) = by_field(words)?;
    on_behind(alloc, words, monitor, event, by, next)
}

/// The form of a rule's line whose tests, or else its `:`, begin with `next`.
fn on_behind<'a>(
    alloc: Global,
    words: &mut Words<'a>,
    monitor: &'a [u8],
    event: &'a [u8],
    by: Option<&'a [u8]>,
    next: &'a [u8],
) -> Result<Form<'a>, LineFault>
    ensures { ReadsValue form_value result (hit_read (on monitor.now event.now (option_copied by.entry)) (next.now ∷ words.old)) }
{
    let (tests, colon) = tests(alloc, words, next)?;
    let (mode, words) = hit(alloc, words, colon)?;
    Ok(Form::On(OnForm {
        monitor,
        event,
        by,
        tests,
        mode,
        words,
    }))
}

/// The mode and what is brought, behind the word that has to be `:`.
fn hit<'a>(
    alloc: Global,
    words: &mut Words<'a>,
    colon: &[u8],
) -> Result<(Mode, Vec<&'a [u8]>), LineFault>
    ensures { ReadsValue (λ hit. (hit.0, texts hit.1.items)) result (hit_at colon.now words.old) }
{
    let _sign = allowed(colon, is(colon, ":"))?;
    let said = word(words)?;
    let mode = mode(said)?;
    let words = rest(alloc, words)?;
    Ok((mode, words))
}

#[tactic(auto, using(crate::proofs::FormLemmas::all_taken, crate::proofs::FormLemmas::one_taken))]
fn rest<'a>(alloc: Global, words: &mut Words<'a>) -> Result<Vec<&'a [u8]>, AllocError>
    ensures { IfOk result (λ taken. texts taken.items ≡ words.old) }
{
    let mut taken = Vec::new(alloc);
    while let Some(word) = words.next_word() {
        taken.push(word)?;
    }
    Ok(taken)
}

/// The field that has the pid, if the line goes on with `by`; and the word after it.
fn by_field<'a>(words: &mut Words<'a>) -> Result<(Option<&'a [u8]>, &'a [u8]), LineFault>
    ensures { ReadsOn (λ by. (option_copied by.0, by.1.now)) result words.new (with_next (by_at words.old)) }
{
    let next = word(words)?;
    if !is(next, "by") {
        return Ok((None, next));
    }
    let field = word(words)?;
    let field = allowed(field, is_field(field))?;
    let next = word(words)?;
    Ok((Some(field), next))
}

/// A test, and the word after it.
fn one_test<'a>(alloc: Global, words: &mut Words<'a>) -> Result<(Test, &'a [u8]), LineFault>
    ensures { ReadsOn (λ test. (test.0, test.1.now)) result words.new (test_next words.old) }
{
    let said = word(words)?;
    let made = test(alloc, said)?;
    let next = word(words)?;
    Ok((made, next))
}

/// The tests of a line whose next word is `next`, and the word after them.
#[tactic(auto, using(crate::proofs::TestLemmas::tests_fault, crate::proofs::TestLemmas::tests_end))]
fn tests<'a>(
    alloc: Global,
    words: &mut Words<'a>,
    next: &'a [u8],
) -> Result<(Vec<Test>, &'a [u8]), LineFault>
    ensures { ReadsOn (λ tests. (tests.0.items, tests.1.now)) result words.new (with_next (tests_at (next.now ∷ words.old))) }
{
    let mut tests = Vec::new(alloc);
    let mut next = next;
    while is(next, "if") {
        let (made, behind) = one_test(alloc, words)?;
        tests.push(made)?;
        next = behind;
    }
    Ok((tests, next))
}
