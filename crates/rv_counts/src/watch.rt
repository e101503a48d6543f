//! What a run is told of the lines of its trace.
ghost use Rattle.std.specs.Prelude.{[], IfOk};
ghost use Rattle.rv_counts.specs.Watching.{IsWatch};

use rv_bind::Bindings;
use rv_matches::{EventFacts, RuleLines, TextFacts};
use rv_stream::LineObserver;
use rv_text::TextLine;
use rv_trace::TakenLine;
use std::alloc::{AllocError, Global};

/// What all lines tell, what the events tell, and what the events are to the rules.
#[derive(Drop)]
pub struct TraceWatch {
    pub(crate) text: TextFacts,
    pub(crate) events: EventFacts,
    pub(crate) rules: RuleLines,
}

impl TraceWatch {
    /// No line was seen.
    pub fn new(alloc: Global, bindings: &Bindings) -> Result<TraceWatch, AllocError>
        ensures { IfOk result (IsWatch bindings.now []) }
    {
        Ok(TraceWatch {
            text: TextFacts::new(),
            events: EventFacts::new(alloc),
            rules: RuleLines::new(alloc, bindings.rules.as_slice())?,
        })
    }
}

impl LineObserver for TraceWatch {
    ghost use Rattle.rv_counts.specs.Watching.{IsWatch};

    type Context = Bindings;

    ghost observed = { IsWatch };

    fn observe(
        &mut self,
        alloc: Global,
        bindings: &Bindings,
        text: &[u8],
        taken: &TakenLine,
    ) -> Result<(), AllocError> {
        let from = 0;
        self.text.add(TextLine {
            number: taken.number,
            from,
            bytes: text,
            end: text.len(),
        })?;
        let Some(line) = &taken.found else {
            return Ok(());
        };
        self.events.add(alloc, text, line)?;
        self.rules.add(alloc, bindings.rules.as_slice(), text, line)
    }
}
