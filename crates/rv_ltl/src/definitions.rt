//! A file is a list of definitions.

ghost use Rattle.std.specs.Prelude.{◌≡◌};
ghost use Rattle.rv_ltl.specs.File.{defs_at, head_name};
ghost use Rattle.rv_ltl.specs.inner.Postfix.{ReadsCode};

use crate::expression::expression;
use crate::marks::after;
use crate::token::{CodeStep, Token};
use rv_text::Unread;
use std::alloc::Global;

/// A name and its formula, as postfix code.
#[derive(Drop)]
pub struct Definition {
    pub name: usize,
    pub code: Vec<CodeStep>,
}

/// The name of the definition in front.
fn head_name(tokens: &[Token]) -> Option<usize>
    ensures { result ≡ head_name tokens.now }
{
    match tokens {
        [Token::Name(name), Token::Equals, ..] => Some(*name),
        _ => None,
    }
}

/// The definitions of a file.
pub fn definitions(alloc: Global, tokens: &[Token]) -> Result<Vec<Definition>, Unread>
    ensures { ReadsCode (defs_at 256 256 tokens.now) result }
{
    let mut out = Vec::new(alloc);
    let mut rest = tokens;
    let mut more = 256usize;
    while !rest.is_empty() {
        if more == 0 {
            return Err(Unread::Syntax);
        }
        let Some(name) = head_name(rest) else {
            return Err(Unread::Syntax);
        };
        let mut code = Vec::new(alloc);
        rest = expression(&mut code, 256, after(after(rest)))?;
        out.push(Definition { name, code })?;
        more -= 1;
    }
    Ok(out)
}
