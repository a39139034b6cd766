//! The assignments of a program.

ghost use Rattle.std.specs.Prelude.{◌≡◌, ◌<◌, List, ℕ, [], option_map, length, IfOk};
ghost use Rattle.fs_model.specs.Expressions.{Expression};
ghost use Rattle.fs_model.specs.View.{named_expression, named_assignment};
ghost use Rattle.fs_grammar.specs.Tokens.{ParsesOn, kind_at, line_at};
ghost use Rattle.fs_grammar.specs.Grammar.{Destination, element, destination_assignment};
ghost use Rattle.fs_expression_text.specs.Inside.{at_sum, sum_alone, whole_sum};
ghost use Rattle.hls_program_parts.specs.Programs.{End, Do, join_blocks};
ghost use Rattle.hls_program_parts.specs.ProgramGrammar.{Open, Named, for_index, for_value, program_reading, at_statement};
ghost use Rattle.hls_program_parts.specs.ProgramGrammar.{after_prog, at_declaration, after_name, at_equals, inside, after};
ghost use Rattle.hls_program_text.specs.Fronts.{IsNoKeyword, destination};

use crate::expressions::sum;
use crate::parts::join;
use fs_grammar::fault::ReadError;
use fs_grammar::token::{Token, TokenKind, accept, front, refuse};
use fs_model::name::Name;
use fs_model::parts::{Assign, Expr};
use fs_phrase_text::declarations::name;
use std::alloc::Global;

// The bracket that closes the index of a destination.
fn close_bracket(tokens: &[Token]) -> Result<&[Token], ReadError>
    ensures goes { (o : Open) (b : Named) (n : ℕ) (x : List ℕ) (i : Expression (List ℕ))
        → ParsesOn result (program_reading tokens.now (after (for_index o b n x) (whole_sum i)))
        (λ r. program_reading r.now (at_equals o b n (element x i))) }
    ensures shorter { IfOk result (λ r. length r.now < length tokens.now) }
{
    match front(tokens) {
        Some(TokenKind::CloseBracket) => accept(tokens),
        _ => Err(refuse(tokens)),
    }
}

// The sign between the two sides of an assignment.
fn equals(tokens: &[Token]) -> Result<&[Token], ReadError>
    ensures goes { (o : Open) (b : Named) (n : ℕ) (d : Destination)
        → ParsesOn result (program_reading tokens.now (at_equals o b n d))
        (λ r. program_reading r.now (inside (for_value o b n d) (at_sum sum_alone))) }
    ensures shorter { IfOk result (λ r. length r.now < length tokens.now) }
{
    match front(tokens) {
        Some(TokenKind::Equals) => accept(tokens),
        _ => Err(refuse(tokens)),
    }
}

// What stands between the index of a destination and the value.
fn index_end(tokens: &[Token]) -> Result<&[Token], ReadError>
    ensures goes { (o : Open) (b : Named) (n : ℕ) (x : List ℕ) (i : Expression (List ℕ))
        → ParsesOn result (program_reading tokens.now (after (for_index o b n x) (whole_sum i)))
        (λ r. program_reading r.now (inside (for_value o b n (element x i)) (at_sum sum_alone))) }
    ensures shorter { IfOk result (λ r. length r.now < length tokens.now) }
{
    let rest = close_bracket(tokens)?;
    equals(rest)
}

// The index of a destination, after the bracket that opens it, up to the value.
fn index(alloc: Global, tokens: &[Token]) -> Result<(Expr<Name>, &[Token]), ReadError>
    ensures goes { (o : Open) (b : Named) (n : ℕ) (x : List ℕ)
        → ParsesOn result (program_reading tokens.now (inside (for_index o b n x) (at_sum sum_alone)))
        (λ y. program_reading y.1.now (inside (for_value o b n (element x (named_expression y.0))) (at_sum sum_alone))) }
    ensures shorter { IfOk result (λ y. length y.1.now < length tokens.now) }
{
    let (index, rest) = sum(alloc, tokens)?;
    join(index, index_end(rest))
}

// The index of a destination, if it has one, after its name, up to the value.
#[tactic(auto, using(crate::proofs::Readings::scalar_ends))]
fn optional_index(
    alloc: Global,
    tokens: &[Token],
) -> Result<(Option<Expr<Name>>, &[Token]), ReadError>
    ensures goes { (o : Open) (b : Named) (n : ℕ) (x : List ℕ)
        → ParsesOn result (program_reading tokens.now (after_name o b n x))
        (λ y. program_reading y.1.now
        (inside (for_value o b n (destination x (option_map named_expression y.0))) (at_sum sum_alone))) }
    ensures shorter { IfOk result (λ y. length y.1.now < length tokens.now) }
{
    match front(tokens) {
        Some(TokenKind::OpenBracket) => {
            let rest = accept(tokens)?;
            let (index, rest) = index(alloc, rest)?;
            Ok((Some(index), rest))
        }
        _ => {
            let rest = equals(tokens)?;
            Ok((None, rest))
        }
    }
}

// What stands before the value of an assignment: a name, and its index, if it has one.
fn before_value(
    alloc: Global,
    tokens: &[Token],
) -> Result<(Name, (Option<Expr<Name>>, &[Token])), ReadError>
    requires { IsNoKeyword (kind_at tokens.now) }
    ensures goes { (o : Open) (b : Named)
        → ParsesOn result (program_reading tokens.now (at_statement o b))
        (λ y. program_reading y.1.1.now
        (inside (for_value o b (line_at tokens.now) (destination y.0 (option_map named_expression y.1.0))) (at_sum sum_alone))) }
    ensures shorter { IfOk result (λ y. length y.1.1.now < length tokens.now) }
{
    let (name, rest) = name(alloc, tokens)?;
    join(name, optional_index(alloc, rest))
}

/// The semicolon behind the word `prog`, or the one that ends an assignment.
pub fn semicolon(tokens: &[Token]) -> Result<&[Token], ReadError>
    ensures head { ParsesOn result (program_reading tokens.now after_prog) (λ r. program_reading r.now (at_declaration [])) }
    ensures goes { (o : Open) (b : Named) (n : ℕ) (d : Destination) (e : Expression (List ℕ))
        → ParsesOn result (program_reading tokens.now (after (for_value o b n d) (whole_sum e)))
        (λ r. program_reading r.now (at_statement o (join_blocks b (Do n (destination_assignment d e) End)))) }
    ensures shorter { IfOk result (λ r. length r.now < length tokens.now) }
{
    match front(tokens) {
        Some(TokenKind::Semicolon) => accept(tokens),
        _ => Err(refuse(tokens)),
    }
}

// The value of an assignment, with its semicolon.
fn value(alloc: Global, tokens: &[Token]) -> Result<(Expr<Name>, &[Token]), ReadError>
    ensures goes { (o : Open) (b : Named) (n : ℕ) (d : Destination)
        → ParsesOn result (program_reading tokens.now (inside (for_value o b n d) (at_sum sum_alone)))
        (λ y. program_reading y.1.now
        (at_statement o (join_blocks b (Do n (destination_assignment d (named_expression y.0)) End)))) }
    ensures shorter { IfOk result (λ y. length y.1.now < length tokens.now) }
{
    let (value, rest) = sum(alloc, tokens)?;
    join(value, semicolon(rest))
}

fn assign(name: Name, index: Option<Expr<Name>>, value: Expr<Name>) -> Assign<Name>
    ensures { named_assignment result ≡ destination_assignment (destination name (option_map named_expression index))
        (named_expression value) }
{
    match index {
        None => Assign::Set(name, value),
        Some(index) => Assign::Put(name, index, value),
    }
}

/// An assignment with its semicolon, and the tokens after it. An `Err` is the first fault, or out of memory.
pub fn assignment(alloc: Global, tokens: &[Token]) -> Result<(Assign<Name>, &[Token]), ReadError>
    requires { IsNoKeyword (kind_at tokens.now) }
    ensures goes { (o : Open) (b : Named)
        → ParsesOn result (program_reading tokens.now (at_statement o b))
        (λ y. program_reading y.1.now (at_statement o (join_blocks b (Do (line_at tokens.now) (named_assignment y.0) End)))) }
    ensures shorter { IfOk result (λ y. length y.1.now < length tokens.now) }
{
    let (name, (index, rest)) = before_value(alloc, tokens)?;
    let (target, (place, (value, rest))) = join(name, join(index, value(alloc, rest)))?;
    Ok((assign(target, place, value), rest))
}
