//! The line that says why a document is refused, or why there is no chirotope to work on.

ghost use Rattle.std.specs.Prelude.{◌≡◌, IfOk, IsErr};
ghost use Rattle.om_representation.specs.RefusalLines.{IsRankLine, IsWidthLine};
ghost use Rattle.om_representation.specs.RefusalLines.{refused_line, map_line, set_line, cov_line, wiring_line};

use super::document_refused::DocumentRefused;
use super::unchosen::Unchosen;
use om_chirotope::MapRefused;
use om_circuits::SetRefused;
use om_covectors::CovRefused;
use om_printing::Line;
use om_signs::NoMemory;
use om_wiring::WiringRefused;

/// The line that names the first violated instance of the axioms of a document.
pub fn refused_line(why: DocumentRefused) -> Line
    ensures { result ≡ refused_line why }
{
    match why {
        DocumentRefused::Map(why) => map_line(why),
        DocumentRefused::Circuits(why) => set_line(why),
        DocumentRefused::Covectors(why) => covector_line(why),
        DocumentRefused::Wiring(why) => wiring_line(why),
        DocumentRefused::RankLow => Line::RefusedRanklow,
    }
}

/// The line that says why a map is no chirotope.
fn map_line(why: MapRefused) -> Line
    ensures { result ≡ map_line why }
{
    match why {
        MapRefused::AllZero => Line::RefusedAllzero,
        MapRefused::Relation { s, a } => Line::RefusedRelation { s, a },
    }
}

/// The line that names a violated instance of the axioms of circuits.
fn set_line(why: SetRefused) -> Line
    ensures { result ≡ set_line why }
{
    match why {
        SetRefused::Zero { i } => Line::RefusedZero { i },
        SetRefused::NoNegative { i } => Line::RefusedNonegative { i },
        SetRefused::Nested { i, j } => Line::RefusedNested { i, j },
        SetRefused::NoElimination { i, j, e } => Line::RefusedNoelimination { i, j, e },
    }
}

/// The line that names a violated instance of the axioms of covectors.
fn covector_line(why: CovRefused) -> Line
    ensures { result ≡ cov_line why }
{
    match why {
        CovRefused::NoZero => Line::RefusedNozero,
        CovRefused::NoNegative { i } => Line::RefusedNonegative { i },
        CovRefused::NoComposition { i, j } => Line::RefusedNocomposition { i, j },
        CovRefused::NoElimination { i, j, e } => Line::RefusedNoelimination { i, j, e },
    }
}

/// The line that says why blocks are no wiring diagram.
fn wiring_line(why: WiringRefused) -> Line
    ensures { result ≡ wiring_line why }
{
    match why {
        WiringRefused::Range { step } => Line::RefusedRange { step },
        WiringRefused::NotIncreasing { step } => Line::RefusedNotincreasing { step },
        WiringRefused::NotReversed => Line::RefusedNotreversed,
    }
}

/// The line of a command of rank 3 if there is no chirotope to work on: one with too many values is of another rank.
/// If memory ran out there is no line.
pub fn rank_line(why: Unchosen) -> Result<Line, NoMemory>
    ensures line { IfOk result (IsRankLine why) }
    ensures memory { IsErr result → why ≡ Unchosen.Memory }
{
    match why {
        Unchosen::TooWide { rank, .. } => Ok(Line::RefusedNotrank3 { r: rank }),
        Unchosen::Memory => Err(NoMemory),
    }
}

/// The line of a command of any rank if there is no chirotope to work on: the number of values. If memory ran out
/// there is no line.
pub fn width_line(why: Unchosen) -> Result<Line, NoMemory>
    ensures line { IfOk result (IsWidthLine why) }
    ensures memory { IsErr result → why ≡ Unchosen.Memory }
{
    match why {
        Unchosen::TooWide { values, .. } => Ok(Line::LimitValues { values }),
        Unchosen::Memory => Err(NoMemory),
    }
}
