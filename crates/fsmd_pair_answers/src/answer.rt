//! What two machines get.

use cert_model::cert::Cert;
use search_tables::outcome::Outcome;

/// What two machines with the same inputs and outputs get.
#[derive(Drop)]
pub enum PairAnswer {
    /// They have the same behaviour: all obligations of the certificate hold.
    Equivalent { cert: Cert },
    /// Lines of inputs from which two runs ended with other outputs.
    Counterexample { lines: Vec<u8> },
    /// Neither is found: how their search stopped.
    Undecided { outcome: Outcome },
}
