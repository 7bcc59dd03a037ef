//! Tests of what operations prescribe and give, of their source faces and of their sums, by the public calls.
#![tactic(auto)]

#[cfg(test)]
mod audits;
#[cfg(test)]
mod exact;
#[cfg(test)]
mod faces;
#[cfg(test)]
mod handed;
#[cfg(test)]
mod labels;
#[cfg(test)]
mod prescribed;
#[cfg(test)]
mod results;
#[cfg(test)]
mod rows;
#[cfg(test)]
mod sums;
