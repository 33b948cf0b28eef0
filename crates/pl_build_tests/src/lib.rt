//! Tests of the building of pipelines: edits, refusals, placing, and the chains that come out.
#![tactic(auto)]

#[cfg(test)]
mod building;
#[cfg(test)]
mod grouping;
#[cfg(test)]
mod sample;
