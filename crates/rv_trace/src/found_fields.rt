//! What was found of fields, of which only what was noted is taken back before the next line.
ghost use Rattle.std.specs.Prelude.{◌≡◌, ◌<◌, ◌≤◌, [], length, OnOk};
ghost use Rattle.rv_trace.specs.inner.Noting.{HasNothing, IsNotedAt};

use crate::line::Span;
use std::alloc::{AllocError, Global};
use std::marker::Model;

/// For each place the span that was found there, if any.
#[derive(Drop)]
pub struct FoundFields {
    spans: Vec<Option<Span>>,
    /// The places where something was noted.
    noted: Vec<usize>,
}

impl Model for FoundFields {
    ghost use Rattle.std.specs.Prelude.{List, Option};
    ghost use Rattle.rv_trace.specs.declared.line.Span.{Span};

    ghost Value = { List (Option Span) };

    ghost use Rattle.rv_trace.specs.FoundFields.{HasNoOther};

    ghost view = { λ f. f.spans.items };

    ghost invariant = { λ f. HasNoOther f.noted.items f.spans.items };
}

impl FoundFields {
    /// Nothing was found.
    pub fn new(alloc: Global) -> FoundFields
        ensures { result ≡ [] }
    {
        FoundFields {
            spans: Vec::new(alloc),
            noted: Vec::new(alloc),
        }
    }

    /// What was found.
    pub fn spans(&self) -> &[Option<Span>]
        ensures { result.now ≡ self.now }
    {
        self.spans.as_slice()
    }

    /// Takes back what was found, and has so many places.
    pub(crate) fn begin(&mut self, count: usize) -> Result<(), AllocError>
        ensures nothing { OnOk result (HasNothing self.new) }
        ensures many { OnOk result (count ≤ length self.new) }
    {
        while let Some(place) = self.noted.pop() {
            if place < self.spans.len() {
                self.spans[place] = None;
            }
        }
        while self.spans.len() < count {
            self.spans.push(None)?;
        }
        Ok(())
    }

    /// Notes what was found at a place, unless something was found there before.
    pub(crate) fn note(&mut self, place: usize, span: Span) -> Result<(), AllocError>
        requires { place < length self.old }
        ensures { OnOk result (IsNotedAt self.old place span self.new) }
    {
        if self.spans[place].is_none() {
            self.noted.push(place)?;
            self.spans[place] = Some(span);
        }
        Ok(())
    }
}
