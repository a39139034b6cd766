//! Terms, their operations, literals and substitution.
//!
//! An empty line parts two tables. The rows of each table are of one kind, and its first line has its name. A text in a row is a
//! list of words, each behind what it works on, as in `a b + 2 *`.

use crate::terms::rows::{Subject, each_table};

mod calls;
mod forms;
mod literals;
mod measures;
mod normal;
mod operations;
mod orders;
mod rows;
mod substitutions;
mod trees;

#[test]
fn worked_examples(rt: HostRuntime) {
    for (subject, text) in &[
        (Subject::Calls, calls::TABLES),
        (Subject::Literals, literals::TABLES),
        (Subject::Measures, measures::TABLES),
        (Subject::Normal, normal::TABLES),
        (Subject::Operations, operations::TABLES),
        (Subject::Orders, orders::TABLES),
        (Subject::Substitutions, substitutions::TABLES),
    ] {
        each_table(&rt, rt.alloc(), subject, text);
    }
}
