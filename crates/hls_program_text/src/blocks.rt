//! The statements and blocks of a program, by descent.

ghost use Rattle.std.specs.Prelude.{◌≡◌, ◌<◌, ◌≤◌, List, ℕ, false, Some, length, IfOk};
ghost use Rattle.std.specs.Result.{OnOk};
ghost use Rattle.fs_model.specs.Expressions as expressions;
ghost use Rattle.fs_model.specs.View.{named_guard, named_assignment};
ghost use Rattle.fs_grammar.specs.declared.fault.ReadError.TheVariants.{Text};
ghost use Rattle.fs_grammar.specs.declared.token.TokenKind.TheVariants as kinds;
ghost use Rattle.fs_grammar.specs.Tokens.{Gives, ParsesOn, kind_at, line_at};
ghost use Rattle.fs_expression_text.specs.Inside.{whole_guard};
ghost use Rattle.hls_program_parts.specs.Programs.{Do, If, While, End, join_blocks};
ghost use Rattle.hls_program_parts.specs.WellFormedPrograms.{most_depth};
ghost use Rattle.hls_program_parts.specs.View.{block_of_statement, block_of};
ghost use Rattle.hls_program_parts.specs.ProgramGrammar.{Open, Named, depth_of, for_if, for_while, program_reading};
ghost use Rattle.hls_program_parts.specs.ProgramGrammar.{at_block, at_statement, after, after_yes, close_block};
ghost use Rattle.hls_program_text.specs.Fronts.{ends_block, IsNoKeyword, nested_fault, tokens_behind_brace, block_reading};

use crate::assignments::assignment;
use crate::expressions::guard;
use crate::parts::join;
use fs_grammar::fault::{ReadError, TextFault, TextKind};
use fs_grammar::token::{Token, TokenKind, accept, front, line_of, refuse};
use fs_model::memory::push_value;
use fs_model::name::Name;
use fs_model::parts::{Assign, Guard};
use hls_program_parts::program::Stmt;
use hls_program_parts::well_formed::DEPTH_LIMIT;
use std::alloc::Global;

// The fault of a brace that opens a block too deep in others.
fn fault_of_brace(tokens: &[Token]) -> ReadError
    ensures { result ≡ Text (nested_fault tokens.now) }
{
    let (line, column) = match tokens {
        [] => (0, 0),
        [first, ..] => (first.place.line, first.place.column),
    };
    ReadError::Text(TextFault {
        line,
        column,
        kind: TextKind::Nested,
    })
}

// The brace that opens a block within so many others.
fn open_brace(depth: u32, tokens: &[Token]) -> Result<&[Token], ReadError>
    ensures gives { Gives (λ r. r.now) result (tokens_behind_brace depth tokens.now) }
    ensures shorter { IfOk result (λ r. length r.now < length tokens.now) }
    ensures shallow { OnOk result (depth ≤ most_depth) }
{
    match front(tokens) {
        Some(TokenKind::OpenBrace) => {
            let rest = accept(tokens)?;
            if depth > DEPTH_LIMIT {
                return Err(fault_of_brace(tokens));
            }
            Ok(rest)
        }
        _ => Err(refuse(tokens)),
    }
}

// The brace that closes a block.
#[tactic(auto, using(crate::proofs::Readings::block_closed))]
fn close_brace(tokens: &[Token]) -> Result<&[Token], ReadError>
    requires { kind_at tokens.now ≡ Some kinds.CloseBrace }
    ensures goes { (o : Open) (b : Named)
        → ParsesOn result (program_reading tokens.now (at_statement o b)) (λ r. program_reading r.now (close_block o b)) }
    ensures shorter { IfOk result (λ r. length r.now < length tokens.now) }
{
    accept(tokens)
}

fn ends_block(tokens: &[Token]) -> bool
    ensures { result ≡ ends_block (kind_at tokens.now) }
{
    matches!(front(tokens), Some(TokenKind::CloseBrace))
}

fn assignment_statement(line: u32, assign: Assign<Name>) -> Stmt
    ensures { block_of_statement result ≡ Do line (named_assignment assign) End }
{
    Stmt::Do { line, assign }
}

fn if_statement(line: u32, guard: Guard, yes: Vec<Stmt>, no: Vec<Stmt>) -> Stmt
    ensures { block_of_statement result ≡ If line (named_guard guard) (block_of yes.items) (block_of no.items) End }
{
    Stmt::If {
        line,
        guard,
        yes,
        no,
    }
}

fn while_statement(line: u32, guard: Guard, body: Vec<Stmt>) -> Stmt
    ensures { block_of_statement result ≡ While line (named_guard guard) (block_of body.items) End }
{
    Stmt::While { line, guard, body }
}

// The guard of a choice, and the word `if` before it.
#[tactic(auto, using(crate::proofs::Readings::if_taken))]
fn if_guard(alloc: Global, tokens: &[Token]) -> Result<(Guard, &[Token]), ReadError>
    requires { kind_at tokens.now ≡ Some kinds.If }
    ensures goes { (o : Open) (b : Named)
        → ParsesOn result (program_reading tokens.now (at_statement o b))
        (λ x. program_reading x.1.now (after (for_if o b (line_at tokens.now)) (whole_guard (named_guard x.0)))) }
    ensures shorter { IfOk result (λ x. length x.1.now < length tokens.now) }
{
    let rest = accept(tokens)?;
    guard(alloc, rest)
}

// The guard of a loop, and the word `while` before it.
#[tactic(auto, using(crate::proofs::Readings::while_taken))]
fn while_guard(alloc: Global, tokens: &[Token]) -> Result<(Guard, &[Token]), ReadError>
    requires { kind_at tokens.now ≡ Some kinds.While }
    ensures goes { (o : Open) (b : Named)
        → ParsesOn result (program_reading tokens.now (at_statement o b))
        (λ x. program_reading x.1.now (after (for_while o b (line_at tokens.now)) (whole_guard (named_guard x.0)))) }
    ensures shorter { IfOk result (λ x. length x.1.now < length tokens.now) }
{
    let rest = accept(tokens)?;
    guard(alloc, rest)
}

/// A block within so many others, and the tokens after it. An `Err` is the first fault, or out of memory.
#[cycle(blocks)]
pub fn block(
    alloc: Global,
    depth: u32,
    tokens: &[Token],
) -> Result<(Vec<Stmt>, &[Token]), ReadError>
    ensures goes { (o : Open) → depth_of o ≡ depth
        → ParsesOn result (block_reading o tokens.now)
        (λ x. program_reading x.1.now (close_block o (block_of x.0.items))) }
    ensures shorter { IfOk result (λ x. length x.1.now < length tokens.now) }
{
    let rest = open_brace(depth, tokens)?;
    statements(alloc, depth, rest)
}

// Statements up to the brace that closes their block, after the one that opens it.
#[cycle(blocks)]
#[tactic(auto, using(crate::proofs::Readings::block_begins, crate::proofs::Readings::joined_last))]
fn statements(
    alloc: Global,
    depth: u32,
    tokens: &[Token],
) -> Result<(Vec<Stmt>, &[Token]), ReadError>
    requires { depth ≤ most_depth }
    ensures goes { (o : Open) → depth_of o ≡ depth
        → ParsesOn result (program_reading tokens.now (at_block o))
        (λ x. program_reading x.1.now (close_block o (block_of x.0.items))) }
    ensures shorter { IfOk result (λ x. length x.1.now < length tokens.now) }
{
    let mut all = Vec::new(alloc);
    let mut rest = tokens;
    'each: while !ends_block(rest) {
        let (one, after) = statement(alloc, depth, rest)?;
        push_value(&mut all, one)?;
        rest = after;
    }
    join(all, close_brace(rest))
}

#[cycle(blocks)]
fn statement(alloc: Global, depth: u32, tokens: &[Token]) -> Result<(Stmt, &[Token]), ReadError>
    requires goes_on { ends_block (kind_at tokens.now) ≡ false }
    requires shallow { depth ≤ most_depth }
    ensures goes { (o : Open) (b : Named) → depth_of o ≡ depth
        → ParsesOn result (program_reading tokens.now (at_statement o b))
        (λ x. program_reading x.1.now (at_statement o (join_blocks b (block_of_statement x.0)))) }
    ensures shorter { IfOk result (λ x. length x.1.now < length tokens.now) }
{
    match front(tokens) {
        Some(TokenKind::If) => choice(alloc, depth, tokens),
        Some(TokenKind::While) => repetition(alloc, depth, tokens),
        _ => read_assignment(alloc, tokens),
    }
}

// A statement that is an assignment.
fn read_assignment(alloc: Global, tokens: &[Token]) -> Result<(Stmt, &[Token]), ReadError>
    requires { IsNoKeyword (kind_at tokens.now) }
    ensures goes { (o : Open) (b : Named)
        → ParsesOn result (program_reading tokens.now (at_statement o b))
        (λ x. program_reading x.1.now (at_statement o (join_blocks b (block_of_statement x.0)))) }
    ensures shorter { IfOk result (λ x. length x.1.now < length tokens.now) }
{
    let line = line_of(tokens);
    let (assign, rest) = assignment(alloc, tokens)?;
    Ok((assignment_statement(line, assign), rest))
}

#[cycle(blocks)]
fn choice(alloc: Global, depth: u32, tokens: &[Token]) -> Result<(Stmt, &[Token]), ReadError>
    requires word { kind_at tokens.now ≡ Some kinds.If }
    requires shallow { depth ≤ most_depth }
    ensures goes { (o : Open) (b : Named) → depth_of o ≡ depth
        → ParsesOn result (program_reading tokens.now (at_statement o b))
        (λ x. program_reading x.1.now (at_statement o (join_blocks b (block_of_statement x.0)))) }
    ensures shorter { IfOk result (λ x. length x.1.now < length tokens.now) }
{
    let line = line_of(tokens);
    let (test, rest) = if_guard(alloc, tokens)?;
    let (guard, (yes, (no, rest))) = join(test, both_blocks(alloc, depth, rest))?;
    Ok((if_statement(line, guard, yes, no), rest))
}

// The two blocks of a choice, behind its guard.
#[cycle(blocks)]
fn both_blocks(
    alloc: Global,
    depth: u32,
    tokens: &[Token],
) -> Result<(Vec<Stmt>, (Vec<Stmt>, &[Token])), ReadError>
    requires { depth ≤ most_depth }
    ensures goes { (o : Open) (b : Named) (n : ℕ) (g : expressions.Guard (List ℕ)) → depth_of o ≡ depth
        → ParsesOn result (program_reading tokens.now (after (for_if o b n) (whole_guard g)))
        (λ x. program_reading x.1.1.now
        (at_statement o (join_blocks b (If n g (block_of x.0.items) (block_of x.1.0.items) End)))) }
    ensures shorter { IfOk result (λ x. length x.1.1.now < length tokens.now) }
{
    let (yes, rest) = block(alloc, depth + 1, tokens)?;
    join(yes, otherwise(alloc, depth, rest))
}

// The second block of a choice: the one behind `else`, or none.
#[cycle(blocks)]
#[tactic(auto, using(crate::proofs::Readings::no_else))]
fn otherwise(
    alloc: Global,
    depth: u32,
    tokens: &[Token],
) -> Result<(Vec<Stmt>, &[Token]), ReadError>
    requires { depth ≤ most_depth }
    ensures goes { (o : Open) (b : Named) (n : ℕ) (g : expressions.Guard (List ℕ)) (y : Named) → depth_of o ≡ depth
        → ParsesOn result (program_reading tokens.now (after_yes o b n g y))
        (λ x. program_reading x.1.now (at_statement o (join_blocks b (If n g y (block_of x.0.items) End)))) }
    ensures shorter { IfOk result (λ x. length x.1.now ≤ length tokens.now) }
{
    match front(tokens) {
        Some(TokenKind::Else) => {
            let rest = accept(tokens)?;
            block(alloc, depth + 1, rest)
        }
        _ => Ok((Vec::new(alloc), tokens)),
    }
}

#[cycle(blocks)]
fn repetition(alloc: Global, depth: u32, tokens: &[Token]) -> Result<(Stmt, &[Token]), ReadError>
    requires word { kind_at tokens.now ≡ Some kinds.While }
    requires shallow { depth ≤ most_depth }
    ensures goes { (o : Open) (b : Named) → depth_of o ≡ depth
        → ParsesOn result (program_reading tokens.now (at_statement o b))
        (λ x. program_reading x.1.now (at_statement o (join_blocks b (block_of_statement x.0)))) }
    ensures shorter { IfOk result (λ x. length x.1.now < length tokens.now) }
{
    let line = line_of(tokens);
    let (test, rest) = while_guard(alloc, tokens)?;
    let (guard, (body, rest)) = join(test, block(alloc, depth + 1, rest))?;
    Ok((while_statement(line, guard, body), rest))
}
