//! Tests of the transformation of manifests: patterns, files of rules, and what rules make of manifests.
#![tactic(auto)]

#[cfg(test)]
mod mogrify;
#[cfg(test)]
mod pattern;
#[cfg(test)]
mod rules;
