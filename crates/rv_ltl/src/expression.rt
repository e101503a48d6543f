//! From tokens to postfix code: a term, or terms with an operator between them.

ghost use Rattle.std.specs.Prelude.{◌≡◌, ◌++◌, ◌∷◌, [], OnOk};
ghost use Rattle.rv_ltl.specs.Parse.{term_at, expr_by};
ghost use Rattle.rv_ltl.specs.inner.Postfix.{Appends, PutsStep};

use crate::marks::{after, front, is_close, operator};
use crate::operators::{is_same_operator, joins};
use crate::token::{CodeStep, Token};
use rv_text::Unread;

/// Puts down one step, and passes the tokens on.
fn put<'t>(
    out: &mut Vec<CodeStep>,
    step: CodeStep,
    tokens: &'t [Token],
) -> Result<&'t [Token], Unread>
    ensures { PutsStep out.old.items out.new.items step tokens.now result }
{
    out.push(step)?;
    Ok(tokens)
}

/// Puts down the code of the term in front, and gives the tokens after it.
#[cycle(expression)]
#[tactic(auto, unfolding(crate::specs::Parse::term_at))]
pub fn term<'t>(
    out: &mut Vec<CodeStep>,
    depth: usize,
    tokens: &'t [Token],
) -> Result<&'t [Token], Unread>
    ensures { Appends out.old.items out.new.items (term_at depth tokens.now) result }
{
    let Some(token) = front(tokens) else {
        return Err(Unread::Syntax);
    };
    let rest = after(tokens);
    match token {
        Token::True => put(out, CodeStep::True, rest),
        Token::False => put(out, CodeStep::False, rest),
        Token::Name(name) => put(out, CodeStep::Name(name), rest),
        Token::Open => {
            if depth == 0 {
                return Err(Unread::Syntax);
            }
            let rest = expression(out, depth - 1, rest)?;
            if !is_close(rest) {
                return Err(Unread::Syntax);
            }
            Ok(after(rest))
        }
        Token::Unary(op) => {
            if depth == 0 {
                return Err(Unread::Syntax);
            }
            let rest = term(out, depth - 1, rest)?;
            put(out, CodeStep::Unary(op), rest)
        }
        _ => Err(Unread::Syntax),
    }
}

/// Puts down the code of the expression in front, and gives the tokens after it.
#[cycle(expression)]
pub fn expression<'t>(
    out: &mut Vec<CodeStep>,
    depth: usize,
    tokens: &'t [Token],
) -> Result<&'t [Token], Unread>
    ensures { Appends out.old.items out.new.items (expr_by (term_at depth) tokens.now) result }
{
    let mut rest = term(out, depth, tokens)?;
    let Some(op) = operator(rest) else {
        return Ok(rest);
    };
    let mut more = joins(op);
    while let Some(other) = operator(rest) {
        if more == 0 {
            return Err(Unread::Syntax);
        }
        if !is_same_operator(op, other) {
            return Err(Unread::Syntax);
        }
        rest = term(out, depth, after(rest))?;
        out.push(CodeStep::Binary(op))?;
        more -= 1;
    }
    Ok(rest)
}
