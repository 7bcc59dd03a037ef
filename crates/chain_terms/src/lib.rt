//! Definitions of sums over lists and of chains of directed edges. Their laws stand in `chain_laws`.
#![tactic(auto)]
