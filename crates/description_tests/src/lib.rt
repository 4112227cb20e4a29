//! Tests over the texts of descriptions: what a text comes to when it is read, checked and put in
//! layers, and what is then known of its words. It gives nothing to other crates: it stands above
//! `rule_read`, `domain_decl` and `strata_check`, so that none of them waits for another, and its
//! tests alone are proved with it.
#![tactic(auto)]

#[cfg(test)]
mod answers;
#[cfg(test)]
mod knowing;
#[cfg(test)]
mod refusals;
#[cfg(test)]
mod samples;
