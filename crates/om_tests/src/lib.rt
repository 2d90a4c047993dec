//! The tests of the public calls of the libraries that don't read or write texts, one module per library, and the
//! public names of these libraries, by the paths under which callers know them.
#![tactic(auto)]

#[cfg(test)]
mod certificate;
#[cfg(test)]
mod chirotope;
#[cfg(test)]
mod circuits;
#[cfg(test)]
mod convert;
#[cfg(test)]
mod covectors;
#[cfg(test)]
mod decide;
#[cfg(test)]
mod dual;
#[cfg(test)]
mod grassmann;
#[cfg(test)]
mod helpers;
#[cfg(test)]
mod lexext;
#[cfg(test)]
mod localize;
#[cfg(test)]
mod make;
#[cfg(test)]
mod maps;
#[cfg(test)]
mod matroid;
#[cfg(test)]
mod members;
#[cfg(test)]
mod minors;
#[cfg(test)]
mod mutate;
#[cfg(test)]
mod oriented;
#[cfg(test)]
mod paint;
#[cfg(test)]
mod parallel;
#[cfg(test)]
mod points;
#[cfg(test)]
mod propagation;
#[cfg(test)]
mod rows;
#[cfg(test)]
mod samples;
#[cfg(test)]
mod signs;
#[cfg(test)]
mod simplex;
#[cfg(test)]
mod subsets;
pub mod surface;
#[cfg(test)]
mod threeterm;
#[cfg(test)]
mod vectors;
#[cfg(test)]
mod wiring;
