//! The token in front of a list of tokens.

ghost use Rattle.std.specs.Prelude.{◌≡◌, drop};
ghost use Rattle.rv_ltl.specs.Parse.{is_close, operator};
ghost use Rattle.rv_ltl.specs.inner.Fronts.{front};

use crate::token::{Binary, Token};

/// The token in front, if there is one.
pub fn front(tokens: &[Token]) -> Option<Token>
    ensures { result ≡ front tokens.now }
{
    match tokens {
        [token, ..] => Some(*token),
        [] => None,
    }
}

/// The tokens after the one in front.
pub fn after(tokens: &[Token]) -> &[Token]
    ensures { result.now ≡ drop 1 tokens.now }
{
    match tokens {
        [_, rest @ ..] => rest,
        [] => tokens,
    }
}

/// The operator in front, if one stands there.
pub fn operator(tokens: &[Token]) -> Option<Binary>
    ensures { result ≡ operator tokens.now }
{
    match tokens {
        [Token::Binary(op), ..] => Some(*op),
        _ => None,
    }
}

/// Whether a closing parenthesis stands in front.
pub fn is_close(tokens: &[Token]) -> bool
    ensures { result ≡ is_close tokens.now }
{
    matches!(tokens, [Token::Close, ..])
}
