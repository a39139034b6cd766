//! Basic blocks, their rows, unit counts, blocks in blocks and chains.

mod blocks;
mod chains;
mod counts;
mod nested;
mod plans;
