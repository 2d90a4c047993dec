use om_chirotope::MapRefused;
use om_circuits::SetRefused;
use om_covectors::CovRefused;
use om_wiring::WiringRefused;

/// The first violated instance of the axioms of a document.
#[derive(Clone, Copy)]
pub enum DocumentRefused {
    /// The map is no chirotope.
    Map(MapRefused),
    /// The members are no circuits, or no cocircuits.
    Circuits(SetRefused),
    /// The members are no covectors.
    Covectors(CovRefused),
    /// The blocks are no wiring diagram.
    Wiring(WiringRefused),
    /// Every triple product of the points is zero.
    RankLow,
}
