//! Programs that keep the rules and limits of texts, lines aside.

ghost use Rattle.std.specs.Prelude.{◌≡◌, ◌&&◌, nat_le, map};
ghost use Rattle.std.specs.List.{list_all};
ghost use Rattle.fs_model.specs.View.{declaration_of, named_assignment, named_guard, named_expression};
ghost use Rattle.hls_program_parts.specs.WellFormedPrograms.{assigns_program_expressions, depth, has_program_expressions};
ghost use Rattle.hls_program_parts.specs.WellFormedPrograms.{is_free};
ghost use Rattle.hls_program_parts.specs.WellFormedPrograms.{is_program_assignment, is_program_block, is_program_declaration};
ghost use Rattle.hls_program_parts.specs.WellFormedPrograms.{is_program_guard, is_program_expression, is_well_formed_program};
ghost use Rattle.hls_program_parts.specs.View.{block_of_statement, block_of, program_of};

use crate::program::{Program, Stmt};
use fs_model::limits::OPERATOR_LIMIT;
use fs_model::name::Name;
use fs_model::parts::{Assign, Decl, Expr, Guard};
use fs_model::well_formed::{operators_of_assign, operators_of_guard};

/// The deepest that a block may stand in others; the outermost block has the depth 0.
pub const DEPTH_LIMIT: u32 = 64;

impl Program {
    /// Whether the program keeps the rules and limits of texts, lines aside: each declaration has a name and declares scalars
    /// or arrays, nothing is emitted, no name is a word of the language, no number is negative, each guard and each assignment
    /// has at most 128 operators and opening brackets in its shortest text, and blocks nest at most 64 deep. Each program that
    /// a text spells keeps them (`crate::grammar_laws::what_is_spelled_is_well_formed`). That a text spells each program that
    /// keeps them is not said. Takes no memory.
    pub fn is_well_formed(&self) -> bool
        ensures { result ≡ is_well_formed_program (program_of self.now) }
    {
        are_declarations(&self.decls) && is_block(&self.body, DEPTH_LIMIT)
    }
}

// Whether a name is no word of programs.
fn is_free(name: &Name) -> bool
    ensures { result ≡ is_free name.now }
{
    let bytes = name.bytes();
    !(bytes == b"prog".as_slice()
        || bytes == b"if".as_slice()
        || bytes == b"else".as_slice()
        || bytes == b"while".as_slice())
}

fn are_free(names: &[Name]) -> bool
    ensures { result ≡ list_all is_free names.now }
{
    names.iter().all(|name| is_free(name))
}

fn is_declaration(decl: &Decl) -> bool
    ensures { result ≡ is_program_declaration (declaration_of decl.now) }
{
    !decl.names.is_empty() && !decl.sort.is_port() && are_free(&decl.names)
}

fn are_declarations(decls: &[Decl]) -> bool
    ensures { result ≡ list_all is_program_declaration (map declaration_of decls.now) }
{
    decls.iter().all(|decl| is_declaration(decl))
}

fn is_expression(expr: &Expr<Name>) -> bool
    ensures { result ≡ is_program_expression (named_expression expr.now) }
{
    match expr {
        Expr::Num(n) => *n >= 0,
        Expr::Var(x) => is_free(x),
        Expr::Read(x, index) => is_free(x) && is_expression(index),
        Expr::Add(a, b) | Expr::Sub(a, b) | Expr::Mul(a, b) | Expr::Div(a, b) | Expr::Rem(a, b) =>
            is_expression(a) && is_expression(b),
        Expr::Neg(a) => is_expression(a),
    }
}

fn has_expressions(guard: &Guard) -> bool
    ensures { result ≡ has_program_expressions (named_guard guard.now) }
{
    match guard {
        Guard::Lit(lit) => is_expression(&lit.left) && is_expression(&lit.right),
        Guard::Not(a) => has_expressions(a),
        Guard::And(a, b) | Guard::Or(a, b) => has_expressions(a) && has_expressions(b),
    }
}

fn is_guard(guard: &Guard) -> bool
    ensures { result ≡ is_program_guard (named_guard guard.now) }
{
    has_expressions(guard) && operators_of_guard(guard) <= OPERATOR_LIMIT
}

fn assigns_expressions(assign: &Assign<Name>) -> bool
    ensures { result ≡ assigns_program_expressions (named_assignment assign.now) }
{
    match assign {
        Assign::Set(x, value) => is_free(x) && is_expression(value),
        Assign::Put(x, index, value) => is_free(x) && is_expression(index) && is_expression(value),
        Assign::Emit(..) => false,
    }
}

fn is_assignment(assign: &Assign<Name>) -> bool
    ensures { result ≡ is_program_assignment (named_assignment assign.now) }
{
    assigns_expressions(assign) && operators_of_assign(assign) <= OPERATOR_LIMIT
}

// Whether statements are those of a program, in which blocks nest at most `levels` deep.
#[cycle(blocks)]
#[tactic(auto, using(crate::proofs::Fits::fits_joined))]
fn is_block(statements: &[Stmt], levels: u32) -> bool
    ensures { result ≡ (is_program_block (block_of statements.now) && nat_le (depth (block_of statements.now)) levels) }
{
    let mut rest = statements;
    'each: while let Some((one, behind)) = rest.split_first() {
        if !is_statement(one, levels) {
            return false;
        }
        rest = behind;
    }
    true
}

// The same of one statement.
#[cycle(blocks)]
#[tactic(auto, using(crate::proofs::Fits::fits_if, crate::proofs::Fits::fits_while))]
fn is_statement(statement: &Stmt, levels: u32) -> bool
    ensures { result
        ≡ (is_program_block (block_of_statement statement.now) && nat_le (depth (block_of_statement statement.now)) levels) }
{
    match statement {
        Stmt::Do { assign, .. } => is_assignment(assign),
        Stmt::If { guard, yes, no, .. } => levels > 0
            && is_guard(guard)
            && is_block(yes, levels - 1)
            && is_block(no, levels - 1),
        Stmt::While { guard, body, .. } => levels > 0
            && is_guard(guard)
            && is_block(body, levels - 1),
    }
}
