//! How many statements there are.

ghost use Rattle.std.specs.Prelude.{◌≡◌, min};
ghost use Rattle.hls_program_parts.specs.Compiled.{count, first};
ghost use Rattle.hls_program_parts.specs.View.{block_of_statement, block_of};

use crate::program::Stmt;

/// How many statements these are, with those in them, as far as 32 bits go. Takes no memory.
#[cycle(counts)]
#[tactic(auto, using(crate::proofs::Joined::count_joined))]
pub fn count(statements: &[Stmt]) -> u32
    ensures { result ≡ min (count (block_of statements.now)) 4294967295 }
{
    let mut total: u32 = 0;
    let mut rest = statements;
    'each: while let Some((one, behind)) = rest.split_first() {
        total = total.saturating_add(size(one));
        rest = behind;
    }
    total
}

/// How many statements one is, with those in it, as far as 32 bits go. Takes no memory.
#[cycle(counts)]
#[tactic(auto, using(crate::proofs::Joined::count_joined))]
pub fn size(statement: &Stmt) -> u32
    ensures { result ≡ min (count (block_of_statement statement.now)) 4294967295 }
{
    match statement {
        Stmt::Do { .. } => 1,
        Stmt::If { yes, no, .. } => count(yes).saturating_add(count(no)).saturating_add(1),
        Stmt::While { body, .. } => count(body).saturating_add(1),
    }
}

/// The number of the first of statements, of which `number` is the first number, or `follow`, where there are none. Takes no
/// memory.
pub fn first(statements: &[Stmt], number: u32, follow: u32) -> u32
    ensures { result ≡ first (block_of statements.now) number follow }
{
    match statements {
        [] => follow,
        [Stmt::Do { .. } | Stmt::If { .. } | Stmt::While { .. }, ..] => number,
    }
}
