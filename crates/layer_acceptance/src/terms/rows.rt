//! Assertions of rows, by their subject and the name of their table.

use crate::terms::{calls, literals, measures, normal, operations, orders, substitutions};
use std::alloc::Global;
use std::process::Abort;

/// What the rows of a text are about.
#[derive(Drop)]
pub enum Subject {
    Calls,
    Literals,
    Measures,
    Normal,
    Operations,
    Orders,
    Substitutions,
}

/// Asserts each row of each table of a text.
pub fn each_table(rt: &impl Abort, alloc: Global, subject: &Subject, text: &str) {
    for table in text.split("\n\n") {
        let (name, rows) = table.split_once(":\n").unwrap_or((table, "no row"));
        each_row(rt, alloc, subject, name, rows);
    }
}

fn each_row(rt: &impl Abort, alloc: Global, subject: &Subject, name: &str, rows: &str) {
    for row in rows.lines() {
        assert!(rt; holds(alloc, subject, name, row), "{name}: {row}");
    }
}

// Whether a row of a table of this name holds; where no table of the subject has such a name, none does.
fn holds(alloc: Global, subject: &Subject, name: &str, row: &str) -> bool {
    match subject {
        Subject::Calls => calls::holds(alloc, name, row),
        Subject::Literals => literals::holds(alloc, name, row),
        Subject::Measures => name == "measures" && measures::has_measures(alloc, row),
        Subject::Normal => normal::holds(alloc, name, row),
        Subject::Operations => operations::holds(alloc, name, row),
        Subject::Orders => name == "order" && orders::stands(alloc, row),
        Subject::Substitutions => name == "substitution" && substitutions::gives(alloc, row),
    }
}

/// The number of a cell, and a number that none has where it is none.
pub fn number(cell: &str) -> u128 {
    cell.trim().parse::<u128>().unwrap_or(u128::MAX)
}
