//! Candidates, generated machines and positions: what the program tries and compares, but does not put.

mod differences;
mod first;
mod further;
mod generated;
mod pairing;
