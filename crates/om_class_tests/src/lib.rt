//! The tests of the public calls of om_symmetry, om_label, om_covers, om_least, om_levels and om_chain.
#![tactic(auto)]

#[cfg(test)]
mod chains;
#[cfg(test)]
mod growing;
#[cfg(test)]
mod images;
#[cfg(test)]
mod labels;
#[cfg(test)]
mod least;
#[cfg(test)]
mod stepping;
