//! Tests of the whole program over a repository and an image in memory.
//!
//! The runs of the program are tables of rows, and `runs` says what is asked of a row, over the repository of `packages` and the image of a `world`: what words mean
//! (`words`), what commands do (`cases`) and to which state they lead (`commands`), how each run may end (`outcomes`, `endings`), what is chosen (`choices`), what
//! packages mean together (`meanings`) and where they conflict (`conflicts`), what becomes of paths (`paths`), of edits (`keep`) and of what would be lost (`salvage`),
//! what lines of manifests, catalogs and indexes hold (`lines`) and records (`records`, `lists`), what rules say of settings, dependencies, mediators, accounts and
//! actuators (`rules`), how steps are laid (`laying`), and by which kinds (`kinds`), trials (`trials`), and a large image (`large`). Runs that are stopped or meet a
//! fault are stories of `endings`, `faults`, `calls` and `stops`, and one of `trials`.
#![tactic(auto)]

#[cfg(test)]
mod calls;
#[cfg(test)]
mod cases;
#[cfg(test)]
mod choices;
#[cfg(test)]
mod commands;
#[cfg(test)]
mod conflicts;
#[cfg(test)]
mod endings;
#[cfg(test)]
mod faults;
#[cfg(test)]
mod keep;
#[cfg(test)]
mod kinds;
#[cfg(test)]
mod large;
#[cfg(test)]
mod laying;
#[cfg(test)]
mod lines;
#[cfg(test)]
mod lists;
#[cfg(test)]
mod meanings;
#[cfg(test)]
mod outcomes;
#[cfg(test)]
mod packages;
#[cfg(test)]
mod paths;
#[cfg(test)]
mod records;
#[cfg(test)]
mod rows;
#[cfg(test)]
mod rules;
#[cfg(test)]
mod runs;
#[cfg(test)]
mod salvage;
#[cfg(test)]
mod stops;
#[cfg(test)]
mod trials;
#[cfg(test)]
mod words;
#[cfg(test)]
mod world;
