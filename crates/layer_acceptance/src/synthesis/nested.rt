//! Blocks in blocks.

use fs_model::parts::{Expr, Guard, Lit, Rel};
use hls_lang::compile::compile;
use hls_lang::program::{Program, Stmt};
use std::alloc::{AllocError, Global};

// A loop round a block, as long as 0 is less than 1.
fn loop_round(body: Vec<Stmt>) -> Stmt {
    Stmt::While {
        line: 1,
        guard: Guard::Lit(Lit {
            rel: Rel::Lt,
            left: Expr::Num(0),
            right: Expr::Num(1),
        }),
        body,
    }
}

// Loops in a loop and so on, the innermost block as deep as said.
fn loops(alloc: Global, depth: u32) -> Result<Vec<Stmt>, AllocError> {
    let mut body = Vec::new(alloc);
    for _ in 0..depth {
        let mut block = Vec::new(alloc);
        block.push(loop_round(body))?;
        body = block;
    }
    Ok(body)
}

// How many states the machine of a program has, where the program is that of a text.
fn states(alloc: Global, program: &Program) -> Option<u32> {
    if !program.is_well_formed() {
        return None;
    }
    match compile(alloc, program) {
        Ok(compiled) => Some(compiled.machine.state_count()),
        Err(_) => Some(0),
    }
}

// The same of a program of loops that are so deep.
fn states_of_loops(alloc: Global, depth: u32) -> Result<Option<u32>, AllocError> {
    let body = loops(alloc, depth)?;
    let decls = Vec::new(alloc);
    Ok(states(alloc, &Program { decls, body }))
}

// Blocks 64 deep are those of a program, and blocks 65 deep are not.
#[test]
fn blocks_nest_64_deep(rt: HostRuntime) {
    assert!(rt; states_of_loops(rt.alloc(), 64) == Ok(Some(65)));
    assert!(rt; states_of_loops(rt.alloc(), 65) == Ok(None));
}
