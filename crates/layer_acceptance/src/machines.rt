//! Machines of texts, and the texts that several tests share.

pub mod reading;
pub mod samples;
