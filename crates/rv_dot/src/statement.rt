//! From tokens to what the statements say.
ghost use Rattle.std.specs.Prelude.{◌≡◌, ◌<◌, ◌≤◌, length, IfOk, IfSome, map, Some};
ghost use Rattle.std.specs.Option.{option_map};
ghost use Rattle.rv_text.specs.inner.Unreads.{IsReadAs};
ghost use Rattle.rv_dot.specs.inner.Held.{lexeme, lexemes, claims};
ghost use Rattle.rv_dot.specs.Names.{name_of};
ghost use Rattle.rv_dot.specs.Grammar.{File, IsFile, file, file_says};
ghost use Rattle.rv_dot.specs.Statements.{declares, value_held, optional_bracket_at, declared_at, ranked_at, group_at, assignment_at, edge_at, named_at, statement_at, statements_at, claims_of};

use crate::fact::Fact;
use crate::lists::{attribute_at, bracket, names};
use crate::marks::{begins, expect, front_word, is_assignment, name_at, past_mark, value_at};
use crate::token::{DotToken, Mark};
use rv_text::Unread;
use std::alloc::{AllocError, Global};

type Said<'t, 'a> = Result<(Vec<Fact<'a>>, &'t [DotToken<'a>]), Unread>;

#[tactic(auto, unfolding(crate::specs::Statements::optional_bracket_at))]
fn optional_bracket<'t, 'a>(
    tokens: &'t [DotToken<'a>],
    key: &[u8],
) -> Option<(Option<DotToken<'a>>, &'t [DotToken<'a>])>
    ensures value { option_map (λ x. (option_map lexeme x.0, lexemes x.1.now)) result ≡ optional_bracket_at key.now (lexemes tokens.now) }
    ensures within { IfSome result (λ x. length x.1.now ≤ length tokens.now) }
{
    if begins(tokens, Mark::OpenBracket) {
        bracket(past_mark(tokens, Mark::OpenBracket), key)
    } else {
        Some((None, tokens))
    }
}

/// Each of the names is declared with this shape.
fn declared_names<'a>(
    alloc: Global,
    names: &[DotToken<'a>],
    shape: Option<DotToken<'a>>,
) -> Result<Vec<Fact<'a>>, AllocError>
    ensures { IfOk result (λ v. claims v.items ≡ map (λ name. declares (name_of name) (value_held (option_map lexeme shape.entry))) (lexemes names.now)) }
{
    let mut facts = Vec::new(alloc);
    for name in names {
        facts.push(Fact::Declares { name: *name, shape })?;
    }
    Ok(facts)
}

/// Behind `{ node`: attributes, and one name or more.
#[tactic(auto, unfolding(crate::specs::Statements::declared_at))]
fn declared<'t, 'a>(alloc: Global, tokens: &'t [DotToken<'a>]) -> Said<'t, 'a>
    ensures value { IsReadAs (λ x. (claims x.0.items, lexemes x.1.now)) result (declared_at (lexemes tokens.now)) }
    ensures within { IfOk result (λ x. length x.1.now ≤ length tokens.now) }
{
    let Some(rest) = expect(tokens, Mark::OpenBracket) else {
        return Err(Unread::Syntax);
    };
    let Some((shape, rest)) = bracket(rest, b"shape") else {
        return Err(Unread::Syntax);
    };
    let (names, rest) = names(alloc, rest)?;
    if names.is_empty() {
        return Err(Unread::Syntax);
    }
    Ok((declared_names(alloc, &names, shape)?, rest))
}

/// Behind `{ word =`: a rank group, which says nothing.
#[tactic(auto, unfolding(crate::specs::Statements::ranked_at))]
fn ranked<'t, 'a>(alloc: Global, tokens: &'t [DotToken<'a>]) -> Said<'t, 'a>
    ensures value { IsReadAs (λ x. (claims x.0.items, lexemes x.1.now)) result (ranked_at (lexemes tokens.now)) }
    ensures within { IfOk result (λ x. length x.1.now ≤ length tokens.now) }
{
    let Some((_, rest)) = value_at(tokens) else {
        return Err(Unread::Syntax);
    };
    let (_, rest) = names(alloc, past_mark(rest, Mark::Semicolon))?;
    Ok((Vec::new(alloc), rest))
}

/// Behind `{`.
#[tactic(auto, unfolding(crate::specs::Statements::group_at))]
fn group<'t, 'a>(alloc: Global, tokens: &'t [DotToken<'a>]) -> Said<'t, 'a>
    ensures value { IsReadAs (λ x. (claims x.0.items, lexemes x.1.now)) result (group_at (lexemes tokens.now)) }
    ensures within { IfOk result (λ x. length x.1.now < length tokens.now) }
{
    let Some((head, rest)) = front_word(tokens) else {
        return Err(Unread::Syntax);
    };
    if begins(rest, Mark::Equals) {
        ranked(alloc, past_mark(rest, Mark::Equals))
    } else if head == b"node".as_slice() {
        declared(alloc, rest)
    } else {
        Err(Unread::Syntax)
    }
}

/// `word = value`, which says nothing.
#[tactic(auto, unfolding(crate::specs::Statements::assignment_at))]
fn assignment<'t, 'a>(alloc: Global, tokens: &'t [DotToken<'a>]) -> Said<'t, 'a>
    ensures value { IsReadAs (λ x. (claims x.0.items, lexemes x.1.now)) result (assignment_at (lexemes tokens.now)) }
    ensures within { IfOk result (λ x. length x.1.now < length tokens.now) }
{
    let Some((_, rest)) = attribute_at(tokens) else {
        return Err(Unread::Syntax);
    };
    Ok((Vec::new(alloc), rest))
}

/// Behind `name ->`.
#[tactic(auto, unfolding(crate::specs::Statements::edge_at))]
fn edge<'t, 'a>(alloc: Global, from: DotToken<'a>, tokens: &'t [DotToken<'a>]) -> Said<'t, 'a>
    ensures value { IsReadAs (λ x. (claims x.0.items, lexemes x.1.now)) result (edge_at (lexeme from.entry) (lexemes tokens.now)) }
    ensures within { IfOk result (λ x. length x.1.now < length tokens.now) }
{
    let Some((to, rest)) = name_at(tokens) else {
        return Err(Unread::Syntax);
    };
    let Some((label, rest)) = optional_bracket(rest, b"label") else {
        return Err(Unread::Syntax);
    };
    let mut facts = Vec::new(alloc);
    facts.push(Fact::Leads { from, to, label })?;
    Ok((facts, rest))
}

/// A node, of which nothing is said, or an edge.
#[tactic(auto, unfolding(crate::specs::Statements::named_at))]
fn named<'t, 'a>(alloc: Global, tokens: &'t [DotToken<'a>]) -> Said<'t, 'a>
    ensures value { IsReadAs (λ x. (claims x.0.items, lexemes x.1.now)) result (named_at (lexemes tokens.now)) }
    ensures within { IfOk result (λ x. length x.1.now < length tokens.now) }
{
    let Some((from, rest)) = name_at(tokens) else {
        return Err(Unread::Syntax);
    };
    if begins(rest, Mark::Arrow) {
        edge(alloc, from, past_mark(rest, Mark::Arrow))
    } else {
        let Some((_, rest)) = optional_bracket(rest, b"") else {
            return Err(Unread::Syntax);
        };
        Ok((Vec::new(alloc), rest))
    }
}

/// A statement, without its semicolon.
#[tactic(auto, unfolding(crate::specs::Statements::statement_at))]
fn statement<'t, 'a>(alloc: Global, tokens: &'t [DotToken<'a>]) -> Said<'t, 'a>
    ensures value { IsReadAs (λ x. (claims x.0.items, lexemes x.1.now)) result (statement_at (lexemes tokens.now)) }
    ensures within { IfOk result (λ x. length x.1.now < length tokens.now) }
{
    if begins(tokens, Mark::OpenBrace) {
        group(alloc, past_mark(tokens, Mark::OpenBrace))
    } else if is_assignment(tokens) {
        assignment(alloc, tokens)
    } else {
        named(alloc, tokens)
    }
}

/// Statements up to the closing brace, and the tokens behind it.
fn statements<'t, 'a>(alloc: Global, tokens: &'t [DotToken<'a>]) -> Said<'t, 'a>
    ensures { IsReadAs (λ x. (claims x.0.items, lexemes x.1.now)) result (statements_at (lexemes tokens.now)) }
{
    let mut found = Vec::new(alloc);
    let mut rest = tokens;
    'statements: while !begins(rest, Mark::CloseBrace) {
        let (facts, after) = statement(alloc, rest)?;
        found.extend_from_slice(&facts)?;
        rest = past_mark(after, Mark::Semicolon);
    }
    Ok((found, past_mark(rest, Mark::CloseBrace)))
}

/// What all the tokens say.
#[tactic(auto, unfolding(crate::specs::Statements::claims_of))]
fn all<'a>(alloc: Global, tokens: &[DotToken<'a>]) -> Result<Vec<Fact<'a>>, Unread>
    ensures { IsReadAs (λ v. claims v.items) result (claims_of (lexemes tokens.now)) }
{
    let Some((head, rest)) = front_word(tokens) else {
        return Err(Unread::Syntax);
    };
    let Some((_, rest)) = front_word(rest) else {
        return Err(Unread::Syntax);
    };
    let Some(rest) = expect(rest, Mark::OpenBrace) else {
        return Err(Unread::Syntax);
    };
    let (facts, rest) = statements(alloc, rest)?;
    if head == b"digraph".as_slice() && rest.is_empty() {
        Ok(facts)
    } else {
        Err(Unread::Syntax)
    }
}

/// What the file says that these tokens spell.
pub fn facts<'a>(alloc: Global, tokens: &[DotToken<'a>]) -> Result<Vec<Fact<'a>>, Unread>
    // What is read is spelled so.
    ensures found { IfOk result (λ v. (f : File) × IsFile f × (lexemes tokens.now ≡ file f) × (file_says f ≡ claims v.items)) }
    // What is spelled so is read, unless memory runs out.
    ensures only { (f : File) → IsFile f → lexemes tokens.now ≡ file f → IsReadAs (λ v. claims v.items) result (Some (file_says f)) }
    ensures exact { IsReadAs (λ v. claims v.items) result (claims_of (lexemes tokens.now)) }
{
    all(alloc, tokens)
}
