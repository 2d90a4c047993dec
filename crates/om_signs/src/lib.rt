//! Signs, sign vectors, lists and the plain parts of documents, and the limits of the workbench.
//!
//! The notions are those of Björner, Las Vergnas, Sturmfels, White and Ziegler, Oriented Matroids, chapters 3 and 4.
#![tactic(auto)]

mod block;
mod laws;
mod limits;
mod list;
mod no_memory;
mod raw_map;
mod sign;
mod sign_vec;
mod threads;

pub use block::Block;
pub use laws::{numbers_of_the_limits, orthogonality_by_supports, ties_of_order};
pub use limits::{
    MAX_BLOCKS, MAX_BOX, MAX_COLUMNS, MAX_COORDINATE, MAX_DRAWN, MAX_ELEMENTS, MAX_ENTRIES,
    MAX_INPUT, MAX_LINES, MAX_MEMBERS, MAX_MULTIPLICITY, MAX_NAME, MAX_PIVOTS, MAX_PLACES,
    MAX_PLAIN, MAX_PLAIN_DIGITS, MAX_POSITION, MAX_POSITION_DIGITS, MAX_READ, MAX_ROW_NAMED,
    MAX_ROWS, MAX_STEPS, MAX_VALUES, MAX_WEIGHT, MIN_DRAWN,
};
pub use list::List;
pub use no_memory::NoMemory;
pub use raw_map::RawMap;
pub use sign::Sign;
pub use sign_vec::SignVec;
