use om_signs::List;
use om_simplex::Stage;

/// How a run of the linear program ended that found neither a certificate nor weights. The numbers are those of
/// [`Outcome`](om_simplex::Outcome).
#[derive(Drop)]
pub enum LpEnd {
    /// All pivots of the budget were made. `count` is the budget, and `basis` has the basis number of each row.
    Pivots {
        count: u32,
        basis: List<u32>,
    },
    /// A number was too wide, or beyond the greatest multiplicity or weight. Given are the stage, the number of the
    /// pivot, the row and the place.
    Width {
        stage: Stage,
        pivot: u32,
        row: u16,
        place: u32,
    },
}
