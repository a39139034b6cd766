//! The transitions of a state: guard, target and assignments.

ghost use Rattle.std.specs.Prelude.{◌≡◌, ◌<◌, ◌≤◌, ◌∷◌, false, List, ℕ, [], map, length, cond, IfOk, IsTrue, Option, Some};
ghost use Rattle.std.specs.Prelude.{option_map};
ghost use Rattle.fs_model.specs.Expressions as expressions;
ghost use Rattle.fs_model.specs.Expressions.{Expression};
ghost use Rattle.fs_model.specs.View.{named_expression, named_guard, named_assignment, source_transition_of};
ghost use Rattle.fs_grammar.specs.declared.token.TokenKind.TheVariants as kinds;
ghost use Rattle.fs_grammar.specs.Tokens.{ParsesOn, kind_at, line_at};
ghost use Rattle.fs_grammar.specs.PartEnds.{EndsSum, EndsGuard, begins_transition};
ghost use Rattle.fs_grammar.specs.Grammar as grammar;
ghost use Rattle.fs_grammar.specs.Grammar.{OpenState, OpenTransition, with_transitions, with_assignments, close_transition};
ghost use Rattle.fs_grammar.specs.Grammar.{destination_assignment, reading, at_assignment, at_port, after_assignment_name};
ghost use Rattle.fs_grammar.specs.Grammar.{at_equals, after_sum, at_sum, write_index, value, at_transition, at_target};
ghost use Rattle.fs_grammar.specs.Grammar.{after_target, at_guard, after_guard};
ghost use Rattle.fs_text_parser.specs.DeclarationStarts.{IsNoEmit};
ghost use Rattle.fs_text_parser.specs.Destinations.{destination_of};

use crate::expressions::{guard, sum};
use crate::parts::{join, push_read};
use fs_grammar::fault::ReadError;
use fs_grammar::format::Format;
use fs_grammar::token::{Token, TokenKind, accept, front, line_of, refuse};
use fs_model::name::Name;
use fs_model::parts::{Assign, Expr, Guard, RawLine};
use fs_phrase_text::declarations::name;
use std::alloc::Global;

/// Where a value goes: to a scalar, to an array at an index, or to a port.
#[derive(Drop)]
pub enum Destination {
    Scalar(Name),
    Element(Name, Expr<Name>),
    Port(Name),
}

impl Destination {
    fn assign(self, value: Expr<Name>) -> Assign<Name>
        ensures { named_assignment result ≡ destination_assignment (destination_of self) (named_expression value) }
    {
        match self {
            Destination::Scalar(name) => Assign::Set(name, value),
            Destination::Element(name, index) => Assign::Put(name, index, value),
            Destination::Port(name) => Assign::Emit(name, value),
        }
    }
}

// The bracket that closes the index of a destination.
fn close_bracket(tokens: &[Token]) -> Result<&[Token], ReadError>
    requires { EndsSum tokens.now }
    ensures goes { (i : Expression (List ℕ)) (o : OpenTransition) (x : List ℕ)
        → ParsesOn result (reading tokens.now (after_sum i (write_index o x)))
        (λ r. reading r.now (at_equals o (grammar.element x i))) }
    ensures shorter { IfOk result (λ r. length r.now < length tokens.now) }
{
    match front(tokens) {
        Some(TokenKind::CloseBracket) => accept(tokens),
        _ => Err(refuse(tokens)),
    }
}

// The sign between the two sides of an assignment.
fn equals(tokens: &[Token]) -> Result<&[Token], ReadError>
    ensures goes { (o : OpenTransition) (d : grammar.Destination)
        → ParsesOn result (reading tokens.now (at_equals o d)) (λ r. reading r.now (at_sum (value o d))) }
    ensures shorter { IfOk result (λ r. length r.now < length tokens.now) }
{
    match front(tokens) {
        Some(TokenKind::Equals) => accept(tokens),
        _ => Err(refuse(tokens)),
    }
}

// What stands between the index of a destination and the value.
fn index_end(tokens: &[Token]) -> Result<&[Token], ReadError>
    requires { EndsSum tokens.now }
    ensures goes { (i : Expression (List ℕ)) (o : OpenTransition) (x : List ℕ)
        → ParsesOn result (reading tokens.now (after_sum i (write_index o x)))
        (λ r. reading r.now (at_sum (value o (grammar.element x i)))) }
    ensures shorter { IfOk result (λ r. length r.now < length tokens.now) }
{
    let rest = close_bracket(tokens)?;
    equals(rest)
}

// The index of a destination in its brackets, up to the value.
fn index(alloc: Global, tokens: &[Token]) -> Result<(Expr<Name>, &[Token]), ReadError>
    requires { kind_at tokens.now ≡ Some kinds.OpenBracket }
    ensures goes { (o : OpenTransition) (x : List ℕ) → ParsesOn result (reading tokens.now (after_assignment_name o x))
        (λ i. reading i.1.now (at_sum (value o (grammar.element x (named_expression i.0))))) }
    ensures shorter { IfOk result (λ x. length x.1.now < length tokens.now) }
{
    let rest = accept(tokens)?;
    let (index, rest) = sum(alloc, rest)?;
    join(index, index_end(rest))
}

// An element of an array as a destination, after its name, up to the value.
fn element(
    alloc: Global,
    name: Name,
    tokens: &[Token],
) -> Result<(Destination, &[Token]), ReadError>
    requires { kind_at tokens.now ≡ Some kinds.OpenBracket }
    ensures goes { (o : OpenTransition) → ParsesOn result (reading tokens.now (after_assignment_name o name))
        (λ x. reading x.1.now (at_sum (value o (destination_of x.0)))) }
    ensures shorter { IfOk result (λ x. length x.1.now < length tokens.now) }
{
    let (name, (index, rest)) = join(name, index(alloc, tokens))?;
    Ok((Destination::Element(name, index), rest))
}

// A destination, after its name, up to the value.
#[tactic(auto, using(crate::proofs::Steps::scalar_ends))]
fn destination_after_name(
    alloc: Global,
    name: Name,
    tokens: &[Token],
) -> Result<(Destination, &[Token]), ReadError>
    ensures goes { (o : OpenTransition) → ParsesOn result (reading tokens.now (after_assignment_name o name))
        (λ x. reading x.1.now (at_sum (value o (destination_of x.0)))) }
    ensures shorter { IfOk result (λ x. length x.1.now < length tokens.now) }
{
    match front(tokens) {
        Some(TokenKind::OpenBracket) => element(alloc, name, tokens),
        _ => join(Destination::Scalar(name), equals(tokens)),
    }
}

// What stands before the value of an assignment.
fn assigned_place(alloc: Global, tokens: &[Token]) -> Result<(Destination, &[Token]), ReadError>
    requires { IsNoEmit (kind_at tokens.now) }
    ensures goes { (o : OpenTransition) → ParsesOn result (reading tokens.now (at_assignment o))
        (λ x. reading x.1.now (at_sum (value o (destination_of x.0)))) }
    ensures shorter { IfOk result (λ x. length x.1.now < length tokens.now) }
{
    let (name, rest) = name(alloc, tokens)?;
    destination_after_name(alloc, name, rest)
}

// The word `emit`, which can follow in format 2 alone.
#[tactic(auto, using(crate::proofs::Steps::emit_taken, crate::proofs::Steps::emit_refused))]
fn emit(format: Format, tokens: &[Token]) -> Result<&[Token], ReadError>
    requires { kind_at tokens.now ≡ Some kinds.Emit }
    ensures goes { (o : OpenTransition) → o.state.format ≡ format
        → ParsesOn result (reading tokens.now (at_assignment o)) (λ r. reading r.now (at_port o)) }
    ensures shorter { IfOk result (λ r. length r.now < length tokens.now) }
{
    match format {
        Format::One => Err(refuse(tokens)),
        Format::Two => accept(tokens),
    }
}

// The port of an emit.
fn port(alloc: Global, tokens: &[Token]) -> Result<(Destination, &[Token]), ReadError>
    ensures goes { (o : OpenTransition) → ParsesOn result (reading tokens.now (at_port o))
        (λ x. reading x.1.now (at_sum (value o (destination_of x.0)))) }
    ensures shorter { IfOk result (λ x. length x.1.now < length tokens.now) }
{
    let (name, rest) = name(alloc, tokens)?;
    Ok((Destination::Port(name), rest))
}

// What stands before the value of an assignment or an emit.
fn value_destination(
    alloc: Global,
    format: Format,
    tokens: &[Token],
) -> Result<(Destination, &[Token]), ReadError>
    ensures goes { (o : OpenTransition) → o.state.format ≡ format
        → ParsesOn result (reading tokens.now (at_assignment o)) (λ x. reading x.1.now (at_sum (value o (destination_of x.0)))) }
    ensures shorter { IfOk result (λ x. length x.1.now < length tokens.now) }
{
    match front(tokens) {
        Some(TokenKind::Emit) => {
            let rest = emit(format, tokens)?;
            port(alloc, rest)
        }
        _ => assigned_place(alloc, tokens),
    }
}

// What follows an assignment: whether it is a comma, and not the end of the line.
fn separator(tokens: &[Token]) -> Result<(bool, &[Token]), ReadError>
    requires { EndsSum tokens.now }
    ensures goes { (o : OpenTransition) (d : grammar.Destination) (e : Expression (List ℕ))
        → let next = with_assignments o (destination_assignment d e ∷ []) in
        ParsesOn result (reading tokens.now (after_sum e (value o d)))
        (λ x. reading x.1.now (cond x.0 (at_assignment next) (at_transition (close_transition next)))) }
    ensures shorter { IfOk result (λ x. length x.1.now < length tokens.now) }
{
    match front(tokens) {
        Some(TokenKind::Comma) => join(true, accept(tokens)),
        Some(TokenKind::Semicolon) => join(false, accept(tokens)),
        _ => Err(refuse(tokens)),
    }
}

// The value of an assignment or an emit, and whether one more follows.
fn listed_value(
    alloc: Global,
    tokens: &[Token],
) -> Result<(Expr<Name>, (bool, &[Token])), ReadError>
    ensures goes { (o : OpenTransition) (d : grammar.Destination)
        → ParsesOn result (reading tokens.now (at_sum (value o d)))
        (λ x. let next = with_assignments o (destination_assignment d (named_expression x.0) ∷ []) in
        reading x.1.1.now (cond x.1.0 (at_assignment next) (at_transition (close_transition next)))) }
    ensures shorter { IfOk result (λ x. length x.1.1.now < length tokens.now) }
{
    let (value, rest) = sum(alloc, tokens)?;
    join(value, separator(rest))
}

// An assignment or an emit, and whether one more follows.
fn listed_assignment(
    alloc: Global,
    format: Format,
    tokens: &[Token],
) -> Result<(Assign<Name>, (bool, &[Token])), ReadError>
    ensures goes { (o : OpenTransition) → o.state.format ≡ format
        → ParsesOn result (reading tokens.now (at_assignment o))
        (λ x. let next = with_assignments o (named_assignment x.0 ∷ []) in
        reading x.1.1.now (cond x.1.0 (at_assignment next) (at_transition (close_transition next)))) }
    ensures shorter { IfOk result (λ x. length x.1.1.now < length tokens.now) }
{
    let (destination, rest) = value_destination(alloc, format, tokens)?;
    let (destination, (value, next)) = join(destination, listed_value(alloc, rest))?;
    Ok((destination.assign(value), next))
}

// Assignments up to the end of their line.
fn assignments(
    alloc: Global,
    format: Format,
    tokens: &[Token],
) -> Result<(Vec<Assign<Name>>, &[Token]), ReadError>
    ensures goes { (o : OpenTransition) → o.state.format ≡ format
        → ParsesOn result (reading tokens.now (at_assignment o))
        (λ x. reading x.1.now (at_transition (close_transition (with_assignments o (map named_assignment x.0.items))))) }
    ensures shorter { IfOk result (λ x. length x.1.now < length tokens.now) }
{
    let mut all = Vec::new(alloc);
    let mut rest = tokens;
    loop {
        let (more, after) = push_read(&mut all, listed_assignment(alloc, format, rest))?;
        if !more {
            return Ok((all, after));
        }
        rest = after;
    }
}

// The assignments of a line, or none, after its target.
fn effects(
    alloc: Global,
    format: Format,
    tokens: &[Token],
) -> Result<(Vec<Assign<Name>>, &[Token]), ReadError>
    ensures goes { (o : OpenTransition) → o.state.format ≡ format
        → ParsesOn result (reading tokens.now (after_target o))
        (λ x. reading x.1.now (at_transition (close_transition (with_assignments o (map named_assignment x.0.items))))) }
    ensures shorter { IfOk result (λ x. length x.1.now < length tokens.now) }
{
    match front(tokens) {
        Some(TokenKind::Colon) => {
            let rest = accept(tokens)?;
            assignments(alloc, format, rest)
        }
        Some(TokenKind::Semicolon) => join(Vec::new(alloc), accept(tokens)),
        _ => Err(refuse(tokens)),
    }
}

// The target and the assignments of a line, after `goto`.
fn target(
    alloc: Global,
    format: Format,
    tokens: &[Token],
) -> Result<(Name, (Vec<Assign<Name>>, &[Token])), ReadError>
    ensures goes { (d : OpenState) (n : ℕ) (g : Option (expressions.Guard (List ℕ))) → d.format ≡ format
        → ParsesOn result (reading tokens.now (at_target d n g))
        (λ x. reading x.1.1.now
        (at_transition
        (close_transition
        (record { state = d; line = n; guard = g; target = x.0; assignments = map named_assignment x.1.0.items })))) }
    ensures shorter { IfOk result (λ x. length x.1.1.now < length tokens.now) }
{
    let (name, rest) = name(alloc, tokens)?;
    join(name, effects(alloc, format, rest))
}

fn begins_transition(tokens: &[Token]) -> bool
    ensures { result ≡ begins_transition (kind_at tokens.now) }
{
    match front(tokens) {
        Some(TokenKind::When) => true,
        Some(TokenKind::Goto) => true,
        _ => false,
    }
}

// The word `goto` after a guard.
fn goto(tokens: &[Token]) -> Result<&[Token], ReadError>
    requires { EndsGuard tokens.now }
    ensures goes { (g : expressions.Guard (List ℕ)) (d : OpenState) (n : ℕ)
        → ParsesOn result (reading tokens.now (after_guard g (grammar.transition_guard d n)))
        (λ r. reading r.now (at_target d n (Some g))) }
    ensures shorter { IfOk result (λ r. length r.now < length tokens.now) }
{
    match front(tokens) {
        Some(TokenKind::Goto) => accept(tokens),
        _ => Err(refuse(tokens)),
    }
}

// The guard of a line and the word `goto`, after `when`.
fn guard_and_goto(alloc: Global, tokens: &[Token]) -> Result<(Option<Guard>, &[Token]), ReadError>
    ensures goes { (d : OpenState) (n : ℕ)
        → ParsesOn result (reading tokens.now (at_guard (grammar.transition_guard d n)))
        (λ x. reading x.1.now (at_target d n (option_map named_guard x.0))) }
    ensures shorter { IfOk result (λ x. length x.1.now < length tokens.now) }
{
    let (guard, rest) = guard(alloc, tokens)?;
    join(Some(guard), goto(rest))
}

// The guard of a line, or none, and the word `goto`.
fn condition(alloc: Global, tokens: &[Token]) -> Result<(Option<Guard>, &[Token]), ReadError>
    requires { IsTrue (begins_transition (kind_at tokens.now)) }
    ensures goes { (d : OpenState) → ParsesOn result (reading tokens.now (at_transition d))
        (λ x. reading x.1.now (at_target d (line_at tokens.now) (option_map named_guard x.0))) }
    ensures shorter { IfOk result (λ x. length x.1.now < length tokens.now) }
{
    match front(tokens) {
        Some(TokenKind::When) => {
            let rest = accept(tokens)?;
            guard_and_goto(alloc, rest)
        }
        Some(TokenKind::Goto) => join(None, accept(tokens)),
        _ => Err(refuse(tokens)),
    }
}

fn transition(
    alloc: Global,
    format: Format,
    tokens: &[Token],
) -> Result<(RawLine, &[Token]), ReadError>
    requires { IsTrue (begins_transition (kind_at tokens.now)) }
    ensures goes { (d : OpenState) → d.format ≡ format
        → ParsesOn result (reading tokens.now (at_transition d))
        (λ x. reading x.1.now (at_transition (with_transitions d (source_transition_of x.0 ∷ [])))) }
    ensures shorter { IfOk result (λ x. length x.1.now < length tokens.now) }
{
    let line = line_of(tokens);
    let (guard, rest) = condition(alloc, tokens)?;
    let (guard, (target, (assigns, rest))) = join(guard, target(alloc, format, rest))?;
    let read = RawLine {
        line,
        guard,
        target,
        assigns,
    };
    Ok((read, rest))
}

/// The transitions of a state, and the tokens after them. An `Err` is the first fault, or out of memory.
pub fn transitions(
    alloc: Global,
    format: Format,
    tokens: &[Token],
) -> Result<(Vec<RawLine>, &[Token]), ReadError>
    ensures goes { (d : OpenState) → d.format ≡ format
        → ParsesOn result (reading tokens.now (at_transition d))
        (λ x. reading x.1.now (at_transition (with_transitions d (map source_transition_of x.0.items)))) }
    ensures shorter { IfOk result (λ x. length x.1.now ≤ length tokens.now) }
    ensures ends { IfOk result (λ x. begins_transition (kind_at x.1.now) ≡ false) }
{
    let mut all = Vec::new(alloc);
    let mut rest = tokens;
    'each: while begins_transition(rest) {
        rest = push_read(&mut all, transition(alloc, format, rest))?;
    }
    Ok((all, rest))
}
