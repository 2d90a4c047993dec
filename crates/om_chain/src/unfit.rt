use om_subsets::Subset;

/// Why a chirotope can't be the next member of a list.
#[derive(Clone, Copy, Debug)]
pub enum Unfit {
    /// It isn't simple: these are the first two elements that are in no common basis. They are a loop and another
    /// element, or two parallel elements.
    Dependent {
        /// The lesser of the two.
        e: u8,
        /// The greater of the two.
        f: u8,
    },
    /// It isn't uniform: this is the first set with the sign 0, in lexicographic order.
    Zero {
        /// The set, of three elements.
        set: Subset,
    },
    /// The last member of the list isn't before it.
    Order,
    /// It isn't the least of its class.
    NotLeast,
}
