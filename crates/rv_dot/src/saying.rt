//! What statements say, with names as they read.
ghost use Rattle.std.specs.Prelude.{◌≡◌, IfOk};
ghost use Rattle.std.specs.Option.{option_map};
ghost use Rattle.rv_dot.specs.inner.Held.{lexeme, claim, claims, claim_of, sayings_claims, bytes_of};
ghost use Rattle.rv_dot.specs.Statements.{value_held};

use crate::fact::Fact;
use crate::names::{content, name};
use crate::token::DotToken;
use std::alloc::{AllocError, Global};

#[derive(Drop)]
pub enum Saying<'a> {
    /// A name, with the shape that its declaration gives.
    Declares {
        name: Vec<u8>,
        shape: Option<&'a [u8]>,
    },
    /// An edge, with its label.
    Leads {
        from: Vec<u8>,
        to: Vec<u8>,
        label: Option<&'a [u8]>,
    },
}

fn value_held<'a>(value: Option<DotToken<'a>>) -> Option<&'a [u8]>
    ensures { option_map bytes_of result ≡ value_held (option_map lexeme value.entry) }
{
    match value {
        None => None,
        Some(token) => Some(content(token)),
    }
}

fn said_of<'a>(alloc: Global, fact: Fact<'a>) -> Result<Saying<'a>, AllocError>
    ensures { IfOk result (λ s. claim_of s ≡ claim fact.entry) }
{
    match fact {
        Fact::Declares { name: token, shape } => {
            let name = name(alloc, token)?;
            Ok(Saying::Declares {
                name,
                shape: value_held(shape),
            })
        }
        Fact::Leads { from, to, label } => {
            let from = name(alloc, from)?;
            let to = name(alloc, to)?;
            Ok(Saying::Leads {
                from,
                to,
                label: value_held(label),
            })
        }
    }
}

/// What the facts say, each with its names.
pub fn sayings<'a>(alloc: Global, facts: &[Fact<'a>]) -> Result<Vec<Saying<'a>>, AllocError>
    ensures { IfOk result (λ v. sayings_claims v.items ≡ claims facts.now) }
{
    let mut found = Vec::new(alloc);
    for fact in facts {
        found.push(said_of(alloc, *fact)?)?;
    }
    Ok(found)
}
