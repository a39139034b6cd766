//! What a second search compares at each pair of points: the terms and the literals of two machines, the points in an order by
//! loops, and how much work is left.
//!
//! Promises: what a second search compares; calls are safe and end, and no more is promised.
//!
//! Words:
//! - head (of a loop): the first point of a strongly connected component that is entered from outside
//! - universe: the terms and literals that may hold between two machines
#![tactic(auto)]

mod cells;
pub mod collection;
mod components;
mod given_numbers;
pub mod live;
pub mod loops;
mod moved_reads;
pub mod order;
pub mod sorted;
pub mod stop;
mod subterms;
pub mod universe;
pub mod work;
