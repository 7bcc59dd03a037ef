//! Definitions of tidying: edges whose ends lie at one point are collapsed, one after the other.
#![tactic(auto)]
