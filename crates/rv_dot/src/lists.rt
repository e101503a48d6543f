//! Attributes in a bracket, and names in a group.
ghost use Rattle.std.specs.Prelude.{◌≡◌, ◌<◌, ◌≤◌, length, IfSome, IfOk};
ghost use Rattle.std.specs.Option.{option_map};
ghost use Rattle.rv_text.specs.inner.Unreads.{IsReadAs};
ghost use Rattle.rv_dot.specs.inner.Held.{lexeme, lexemes, setting};
ghost use Rattle.rv_dot.specs.Lists.{separated, attribute_at, bracket_at, names_at};

use crate::attribute::Attribute;
use crate::marks::{begins, expect, front_word, name_at, past_mark, value_at};
use crate::token::{DotToken, Mark};
use rv_text::Unread;
use std::alloc::Global;

/// The tokens behind at most one comma or semicolon.
#[tactic(auto, unfolding(crate::specs::Lists::separated))]
fn separated<'t, 'a>(tokens: &'t [DotToken<'a>]) -> &'t [DotToken<'a>]
    ensures value { lexemes result.now ≡ separated (lexemes tokens.now) }
    ensures within { length result.now ≤ length tokens.now }
{
    if begins(tokens, Mark::Comma) {
        past_mark(tokens, Mark::Comma)
    } else {
        past_mark(tokens, Mark::Semicolon)
    }
}

/// A word, `=` and a value at the front, and the tokens behind them.
#[tactic(auto, unfolding(crate::specs::Lists::attribute_at))]
pub fn attribute_at<'t, 'a>(
    tokens: &'t [DotToken<'a>],
) -> Option<(Attribute<'a>, &'t [DotToken<'a>])>
    ensures value { option_map (λ x. (setting x.0, lexemes x.1.now)) result ≡ attribute_at (lexemes tokens.now) }
    ensures within { IfSome result (λ x. length x.1.now < length tokens.now) }
{
    let (key, rest) = front_word(tokens)?;
    let rest = expect(rest, Mark::Equals)?;
    let (value, rest) = value_at(rest)?;
    Some((Attribute { key, value }, rest))
}

/// Behind an opening bracket: the value that counts for the key, which is the last one, and the tokens behind the closing bracket.
#[tactic(auto, unfolding(crate::specs::Lists::bracket_at))]
pub fn bracket<'t, 'a>(
    tokens: &'t [DotToken<'a>],
    key: &[u8],
) -> Option<(Option<DotToken<'a>>, &'t [DotToken<'a>])>
    ensures value { option_map (λ x. (option_map lexeme x.0, lexemes x.1.now)) result ≡ bracket_at key.now (lexemes tokens.now) }
    ensures within { IfSome result (λ x. length x.1.now ≤ length tokens.now) }
{
    let mut value = None;
    let mut rest = tokens;
    'attributes: while !begins(rest, Mark::CloseBracket) {
        let (attribute, after) = attribute_at(rest)?;
        if attribute.key == key {
            value = Some(attribute.value);
        }
        rest = separated(after);
    }
    Some((value, past_mark(rest, Mark::CloseBracket)))
}

/// The names up to the closing brace, and the tokens behind it.
pub fn names<'t, 'a>(
    alloc: Global,
    tokens: &'t [DotToken<'a>],
) -> Result<(Vec<DotToken<'a>>, &'t [DotToken<'a>]), Unread>
    ensures value { IsReadAs (λ x. (lexemes x.0.items, lexemes x.1.now)) result (names_at (lexemes tokens.now)) }
    ensures within { IfOk result (λ x. length x.1.now ≤ length tokens.now) }
{
    let mut found = Vec::new(alloc);
    let mut rest = tokens;
    'names: while !begins(rest, Mark::CloseBrace) {
        let Some((name, after)) = name_at(rest) else {
            return Err(Unread::Syntax);
        };
        found.push(name)?;
        rest = past_mark(after, Mark::Semicolon);
    }
    Ok((found, past_mark(rest, Mark::CloseBrace)))
}
