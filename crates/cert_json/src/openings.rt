//! What the tokens of JSON open.

ghost use Rattle.std.specs.Prelude.{◌≡◌, ◌<◌, ◌&&◌, nat_lt, IsTrue};
ghost use Rattle.json.specs.Reads.{token_of};
ghost use Rattle.cert_json.specs.Tokens.{begins_list, begins_object};

use json::Token;

/// Whether a token opens a list, where one more may stand within another.
#[inline(always)]
pub fn begins_list(token: &Token<'_>, depth: usize) -> bool
    ensures value { result ≡ (nat_lt 0 depth && begins_list (token_of token.now)) }
    ensures some { IsTrue result → 0 < depth }
{
    depth > 0 && matches!(token, Token::BeginArray)
}

/// Whether a token opens an object, where one more may stand within another.
#[inline(always)]
pub fn begins_object(token: &Token<'_>, depth: usize) -> bool
    ensures value { result ≡ (nat_lt 0 depth && begins_object (token_of token.now)) }
    ensures some { IsTrue result → 0 < depth }
{
    depth > 0 && matches!(token, Token::BeginObject)
}
