use super::fault::Fault;
use om_chain::{Asked, Gap, Unfit};

/// A line of an answer. Documents count from 1, in the order of the stream.
#[derive(Clone, Copy, Debug)]
pub enum Line {
    /// The list on so many elements, with so many members, is shown: it is complete or exact, as was asked.
    Shown {
        asked: Asked,
        elements: u8,
        members: usize,
    },
    /// The stream has no document.
    Empty,
    /// The document is no chirotope of rank 3.
    Fault {
        document: u64,
        fault: Fault,
    },
    /// The document can't be a member of the list that is being read, nor the first one of the next list: it has
    /// another number of elements.
    Elements {
        document: u64,
    },
    /// The document can't be the next member of its list.
    Unfit {
        document: u64,
        unfit: Unfit,
    },
    /// The list on so many elements isn't shown by the list before it.
    Gap {
        elements: u8,
        gap: Gap,
    },
}
