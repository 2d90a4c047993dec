use om_signs::MAX_ELEMENTS;

/// The size of a table with one place for each increasing triple of elements.
pub const ROOM: usize = MAX_ELEMENTS as usize
    * (MAX_ELEMENTS as usize - 1)
    * (MAX_ELEMENTS as usize - 2)
    / 6;
