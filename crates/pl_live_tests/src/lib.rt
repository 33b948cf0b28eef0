//! Tests of live channels: fed burst by burst, and what they hand out.
#![tactic(auto)]

#[cfg(test)]
mod tests;
