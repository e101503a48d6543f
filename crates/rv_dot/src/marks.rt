//! Single tokens: marks, words, values and names.
ghost use Rattle.std.specs.Prelude.{◌≡◌, ◌<◌, ◌≤◌, length, IfSome};
ghost use Rattle.std.specs.Option.{option_map};
ghost use Rattle.rv_dot.specs.inner.Held.{lexeme, lexemes};
ghost use Rattle.rv_dot.specs.Marks.{begins, expects, past_mark, is_assignment, mark_eq};
ghost use Rattle.rv_dot.specs.Lists.{is_keyword, front_word, value_at, name_at};

use crate::token::{DotToken, Mark};

fn same(a: Mark, b: Mark) -> bool
    ensures { result ≡ mark_eq a b }
{
    a == b
}

/// Whether this mark stands at the front.
#[tactic(auto, unfolding(crate::specs::Marks::begins))]
pub fn begins(tokens: &[DotToken<'_>], mark: Mark) -> bool
    ensures value { result ≡ begins mark (lexemes tokens.now) }
{
    match tokens {
        [DotToken::Sign(found), ..] => same(mark, *found),
        _ => false,
    }
}

/// The tokens behind this mark, which has to stand at the front.
#[tactic(auto, unfolding(crate::specs::Marks::expects))]
pub fn expect<'t, 'a>(tokens: &'t [DotToken<'a>], mark: Mark) -> Option<&'t [DotToken<'a>]>
    ensures value { option_map (λ rest. lexemes rest.now) result ≡ expects mark (lexemes tokens.now) }
    ensures within { IfSome result (λ rest. length rest.now < length tokens.now) }
{
    match tokens {
        [DotToken::Sign(found), rest @ ..] if same(mark, *found) => Some(rest),
        _ => None,
    }
}

/// The tokens behind this mark, where it stands at the front; else all of them.
#[tactic(auto, unfolding(crate::specs::Marks::past_mark))]
pub fn past_mark<'t, 'a>(tokens: &'t [DotToken<'a>], mark: Mark) -> &'t [DotToken<'a>]
    ensures value { lexemes result.now ≡ past_mark mark (lexemes tokens.now) }
    ensures within { length result.now ≤ length tokens.now }
{
    match tokens {
        [DotToken::Sign(found), rest @ ..] if same(mark, *found) => rest,
        _ => tokens,
    }
}

/// Whether a word and `=` stand at the front.
#[tactic(auto, unfolding(crate::specs::Marks::is_assignment))]
pub fn is_assignment(tokens: &[DotToken<'_>]) -> bool
    ensures { result ≡ is_assignment (lexemes tokens.now) }
{
    match tokens {
        [DotToken::Word(_), rest @ ..] => begins(rest, Mark::Equals),
        _ => false,
    }
}

fn is_keyword(word: &[u8]) -> bool
    ensures { result ≡ is_keyword word.now }
{
    word == b"digraph".as_slice()
        || word == b"node".as_slice()
        || word == b"edge".as_slice()
        || word == b"graph".as_slice()
        || word == b"subgraph".as_slice()
        || word == b"strict".as_slice()
}

#[tactic(auto, unfolding(crate::specs::Lists::front_word))]
pub fn front_word<'t, 'a>(tokens: &'t [DotToken<'a>]) -> Option<(&'a [u8], &'t [DotToken<'a>])>
    ensures value { option_map (λ x. (x.0.now, lexemes x.1.now)) result ≡ front_word (lexemes tokens.now) }
    ensures within { IfSome result (λ x. length x.1.now < length tokens.now) }
{
    match tokens {
        [DotToken::Word(word), rest @ ..] => Some((*word, rest)),
        _ => None,
    }
}

#[tactic(auto, unfolding(crate::specs::Lists::value_at))]
pub fn value_at<'t, 'a>(tokens: &'t [DotToken<'a>]) -> Option<(DotToken<'a>, &'t [DotToken<'a>])>
    ensures value { option_map (λ x. (lexeme x.0, lexemes x.1.now)) result ≡ value_at (lexemes tokens.now) }
    ensures within { IfSome result (λ x. length x.1.now < length tokens.now) }
{
    match tokens {
        [DotToken::Word(word), rest @ ..] => Some((DotToken::Word(*word), rest)),
        [DotToken::Text(text), rest @ ..] => Some((DotToken::Text(*text), rest)),
        _ => None,
    }
}

/// A name: a string, or a word that is no keyword.
#[tactic(auto, unfolding(crate::specs::Lists::name_at))]
pub fn name_at<'t, 'a>(tokens: &'t [DotToken<'a>]) -> Option<(DotToken<'a>, &'t [DotToken<'a>])>
    ensures value { option_map (λ x. (lexeme x.0, lexemes x.1.now)) result ≡ name_at (lexemes tokens.now) }
    ensures within { IfSome result (λ x. length x.1.now < length tokens.now) }
{
    match tokens {
        [DotToken::Word(word), rest @ ..] => {
            if is_keyword(*word) {
                None
            } else {
                Some((DotToken::Word(*word), rest))
            }
        }
        [DotToken::Text(text), rest @ ..] => Some((DotToken::Text(*text), rest)),
        _ => None,
    }
}
