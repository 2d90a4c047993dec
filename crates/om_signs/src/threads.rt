//! The types of this crate can cross threads.
use super::block::Block;
use super::list::List;
use super::no_memory::NoMemory;
use super::raw_map::RawMap;
use super::sign::Sign;
use super::sign_vec::SignVec;

/// A type whose values may be moved to another thread and shared between threads.
trait Crosses: Send + Sync {}

impl Crosses for Sign {}

impl Crosses for SignVec {}

impl Crosses for Block {}

impl Crosses for NoMemory {}

impl<T: Copy + Send + Sync> Crosses for List<T> {}

impl Crosses for RawMap {}
