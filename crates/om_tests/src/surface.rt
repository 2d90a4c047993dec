//! The surface of the libraries: each public name, by the path under which callers know it. Nothing here runs. A
//! definition that moves to another crate has to stay reachable by its path, or this file isn't compiled any more.
//! `om_program_tests` has such a file for the crates that read and write bytes.
//!
//! A module is named for its crate, without `om_`, and brings in the types, traits and calls of the crate. The
//! functions below name the methods.

/// Signs, sign vectors and lists.
pub mod signs {
    pub use om_signs::{Block, List, NoMemory, RawMap, Sign, SignVec};
}

/// Subsets.
pub mod subsets {
    pub use om_subsets::Subset;
}

/// Searches and maps on threads.
pub mod parallel {
    pub use om_parallel::{Part, Probe, first_bad, map_parts};
}

/// Chirotopes.
pub mod chirotope {
    pub use om_chirotope::{BadMap, Chirotope, MapRefused, check, violated};
}

/// Bases.
pub mod matroid {
    pub use om_matroid::{
        exchange, extend_to_basis, first_basis, is_coloop, is_loop, parallel, rank_of,
    };
}

/// Circuits and cocircuits.
pub mod circuits {
    pub use om_circuits::{BadSet, Circuits, Cocircuits, SetRefused, SignedSet, check};
}

/// Covectors.
pub mod covectors {
    pub use om_covectors::{BadCov, CovRefused, Covectors, check};
}

/// What all four kinds share.
pub mod oriented {
    pub use om_oriented::{Differ, Oriented, same};
}

/// Conversions.
pub mod convert {
    pub use om_convert::{
        ConvertError, ReadCovError, ReadSetError, chirotope_to_circuits, chirotope_to_cocircuits,
        chirotope_to_covectors, circuits_to_chirotope, circuits_to_cocircuits,
        circuits_to_covectors, cocircuits_to_chirotope, cocircuits_to_circuits,
        cocircuits_to_covectors, covectors_to_chirotope, covectors_to_circuits,
        covectors_to_cocircuits, rank_circuits, rank_cocircuits, rank_covectors, read_circuits,
        read_cocircuits, read_covectors,
    };
}

/// Duals.
pub mod dual {
    pub use om_dual::{dual, dual_circuits, dual_cocircuits, dual_covectors};
}

/// Deletions, contractions and reorientations.
pub mod minors {
    pub use om_minors::{
        MinorError, contract_chirotope, contract_circuits, contract_cocircuits, contract_covectors,
        delete_chirotope, delete_circuits, delete_cocircuits, delete_covectors, reorient_chirotope,
        reorient_circuits, reorient_cocircuits, reorient_covectors,
    };
}

/// Wiring diagrams.
pub mod wiring {
    pub use om_wiring::{
        BadWiring, FlatError, SweepError, Wiring, WiringRefused, check, chirotope, sweep,
    };
}

/// Mutations.
pub mod mutate {
    pub use om_mutate::{
        BadFlip, FlipRefused, MutationError, NotTriangle, flip, flip_wiring, mutations,
    };
}

/// Extensions by one element.
pub mod localize {
    pub use om_localize::{ExtendError, Listing, Signature, extensions};
}

/// Vectors with whole-number coordinates.
pub mod vectors {
    pub use om_vectors::{SignsError, Unfound, Vector, Word, realizes, signs_of, triple};
}

/// Three-term statements.
pub mod grassmann {
    pub use om_grassmann::{Statement, following, lawful, nth_statement, sides};
}

/// Rows of whole numbers.
pub mod rows {
    pub use om_rows::{Column, Wide, combine, compare_ratios, dot, primitive};
}

/// The linear program.
pub mod simplex {
    pub use om_simplex::{Count, Outcome, Stage, solve};
}

/// Evidence and its check.
pub mod certificate {
    pub use om_certificate::{
        CertRefused, Entry, Evidence, LpEnd, Stage, Verdict, Weight, certificate, check,
    };
}

/// The search for vectors.
pub mod points {
    pub use om_points::search;
}

/// Verdicts.
pub mod decide {
    pub use om_decide::{Budgets, DecideError, decide};
}

/// Vectors that are made from a number.
pub mod make {
    pub use om_make::{Tally, summary, vectors};
}

/// Paintings and hulls.
pub mod paint {
    pub use om_paint::{Colour, HullError, Painted, acyclic, hull, paint};
}

/// Lexicographic extensions.
pub mod lexext {
    pub use om_lexext::{LexError, Signed, lexical};
}

/// The three-term test.
pub mod threeterm {
    pub use om_threeterm::{BadThree, ThreeRefused, check};
}

/// The methods of lists, signs and sign vectors.
pub fn methods_of_signs() {
    let _lists = (
        signs::List::<u8>::new,
        signs::List::<u8>::len,
        signs::List::<u8>::at,
        signs::List::<u8>::as_slice,
        signs::List::<u8>::set,
        signs::List::<u8>::push,
        signs::List::<u8>::copy,
    );
    let _signs = (signs::Sign::neg, signs::Sign::times);
    let _vectors = (
        signs::SignVec::zero,
        signs::SignVec::len,
        signs::SignVec::get,
        signs::SignVec::set,
        signs::SignVec::neg,
        signs::SignVec::compose,
    );
    let _pairs = (
        signs::SignVec::separation,
        signs::SignVec::support,
        signs::SignVec::orthogonal,
        signs::SignVec::conforms,
        signs::SignVec::drop_place,
        signs::SignVec::flip,
    );
}

/// The methods of subsets.
pub fn methods_of_subsets() {
    let _places = (
        subsets::Subset::first,
        subsets::Subset::next,
        subsets::Subset::rank,
        subsets::Subset::unrank,
        subsets::Subset::rank_revlex,
        subsets::Subset::unrank_revlex,
        subsets::Subset::choose,
    );
    let _members = (
        subsets::Subset::from_mask,
        subsets::Subset::mask,
        subsets::Subset::size,
        subsets::Subset::has,
        subsets::Subset::with,
        subsets::Subset::without,
        subsets::Subset::odd_after,
    );
}

/// The methods of the four kinds.
pub fn methods_of_kinds() {
    let _maps = (
        chirotope::Chirotope::rank,
        chirotope::Chirotope::elements,
        chirotope::Chirotope::at,
        chirotope::Chirotope::value,
        chirotope::Chirotope::circuit_of,
        chirotope::Chirotope::cocircuit_of,
    );
    let _moved_maps = (
        chirotope::Chirotope::negate,
        chirotope::Chirotope::normal,
        chirotope::Chirotope::copy,
        chirotope::Chirotope::lawful,
        chirotope::Chirotope::into_raw,
    );
    let _sets = (
        circuits::SignedSet::members,
        circuits::SignedSet::elements,
        circuits::SignedSet::into_list,
        circuits::SignedSet::lawful,
    );
    let _covectors = (
        covectors::Covectors::members,
        covectors::Covectors::elements,
        covectors::Covectors::into_list,
        covectors::Covectors::minimal,
        covectors::Covectors::lawful,
    );
    let _all_kinds = (
        <chirotope::Chirotope as oriented::Oriented>::elements,
        <circuits::Circuits as oriented::Oriented>::is_covector,
        <circuits::Cocircuits as oriented::Oriented>::is_covector,
        <covectors::Covectors as oriented::Oriented>::is_covector,
    );
}

/// The methods of rank 3.
pub fn methods_of_rank_three() {
    let _wirings = (
        wiring::Wiring::elements,
        wiring::Wiring::blocks,
        wiring::Wiring::into_blocks,
    );
    let _signatures = (localize::Signature::len, localize::Signature::at);
    let _vectors = (
        vectors::Vector::new,
        vectors::Vector::x,
        vectors::Vector::y,
        vectors::Vector::z,
    );
    let _words = (
        vectors::Word::new,
        vectors::Word::len,
        vectors::Word::at,
        vectors::Word::as_slice,
        vectors::Word::push,
        vectors::Word::cut,
    );
}
