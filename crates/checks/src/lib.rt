// Tests of the crates below, each beside a second reading of the same facts that shares no code with the first.
#![tactic(auto)]

#[cfg(test)]
mod names;
#[cfg(test)]
mod notations;
#[cfg(test)]
mod piles;
#[cfg(test)]
mod scripts;
#[cfg(test)]
mod watching;
