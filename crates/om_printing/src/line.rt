use om_document::Code;
use om_grassmann::Statement;
use om_signs::SignVec;
use om_subsets::Subset;

/// An answer of one line. Its text is the words of its name in lower case, then its fields in order, with single
/// spaces. Members of a list count from 1, in the order of the distinct ones.
#[derive(Clone, Copy)]
pub enum Line {
    /// The document satisfies the axioms of its kind.
    Accepted,
    /// The sign vector is a covector.
    Covector,
    /// The sign vector isn't a covector.
    NotCovector,
    /// The claim's vectors realize the chirotope of its document.
    ValidRealizable,
    /// The claim's entries are a biquadratic final polynomial of the chirotope of its document: no integer vectors
    /// realize it.
    ValidNonrealizable,
    /// The claim's weights show that the chirotope of its document has no biquadratic final polynomial.
    ValidUndecided,
    /// The circuit `x` fits the colours.
    Circuit {
        x: SignVec,
    },
    /// No circuit fits the colours; the cocircuit `x` does.
    Cocircuit {
        x: SignVec,
    },
    /// The oriented matroid isn't acyclic: no sign of its circuit `x` is minus.
    Cyclic {
        x: SignVec,
    },
    /// The arguments aren't a command: word `word`, counted from 1, is at fault.
    Usage {
        word: u32,
    },
    /// The answer would have more than `limit` members.
    LimitMembers {
        limit: u32,
    },
    /// A chirotope would have `values` values, more than a document may hold. It is the one of the oriented matroid
    /// or, for `lexext`, the one of its extension.
    LimitValues {
        values: u32,
    },
    /// The input has more bytes than the limit.
    RefusedLong,
    /// Line `line` of the input, counted from 1, is the first at fault.
    RefusedLine {
        line: u32,
        code: Code,
    },
    /// All values of the map are zero.
    RefusedAllzero,
    /// The first pair of sets at which the axioms of a chirotope fail.
    RefusedRelation {
        s: Subset,
        a: Subset,
    },
    /// Member `i` is the first that is the zero vector.
    RefusedZero {
        i: u32,
    },
    /// Member `i` is the first whose negative is no member.
    RefusedNonegative {
        i: u32,
    },
    /// Members `i` and `j` are the first such that the support of `i` lies in that of `j`, and the two are neither
    /// equal nor negatives of each other.
    RefusedNested {
        i: u32,
        j: u32,
    },
    /// Members `i` and `j` and the element `e` are the first for which no member eliminates `e` from the two.
    RefusedNoelimination {
        i: u32,
        j: u32,
        e: u8,
    },
    /// The zero vector is no member.
    RefusedNozero,
    /// Members `i` and `j` are the first whose composition is no member.
    RefusedNocomposition {
        i: u32,
        j: u32,
    },
    /// Block `step` of the wiring, counted from 1, has fewer than two positions, or a position outside the wires.
    RefusedRange {
        step: u32,
    },
    /// The labels at block `step` of the wiring, counted from 1, aren't increasing.
    RefusedNotincreasing {
        step: u32,
    },
    /// The blocks of the wiring don't end with the wires in reversed order.
    RefusedNotreversed,
    /// All triple products of the points are 0.
    RefusedRanklow,
    /// The rank of the wiring isn't 3: all values of its map are zero.
    RefusedFlatrank,
    /// `member` was given `given` signs, or `paint` `given` letters, and this isn't the number of elements.
    RefusedLength {
        given: u32,
    },
    /// The first element among the arguments that is above the number of elements.
    RefusedPlace {
        e: u8,
    },
    /// The only element can't be deleted or contracted.
    RefusedLastelement,
    /// The rank is `r`, and the command requires rank 3.
    RefusedNotrank3 {
        r: u8,
    },
    /// There are `n` elements, the most that are allowed, so none can be added.
    RefusedFull {
        n: u8,
    },
    /// The three elements are no basis.
    RefusedNotbasis,
    /// With the element at infinity, this is the first pair of sets at which the axioms of a chirotope fail.
    RefusedNotsweepable {
        s: Subset,
        a: Subset,
    },
    /// With the value of the three elements negated, this is the first pair of sets at which the axioms of a chirotope
    /// fail.
    RefusedNotmutation {
        s: Subset,
        a: Subset,
    },
    /// The element `e`, for which a painting is requested, is black or white.
    RefusedColour {
        e: u8,
    },
    /// The three-term test is requested for a document that isn't a map.
    RefusedNotmap,
    /// The bases `b` and `c` and the element `e` of `b` are the first for which no element of `c` can be exchanged
    /// for `e`.
    RefusedNoexchange {
        b: Subset,
        c: Subset,
        e: u8,
    },
    /// The set `p` and the four elements of `q` are the first whose three-term relation fails.
    RefusedThreeterm {
        p: Subset,
        q: Subset,
    },
    /// The claim's verdict is a limit, which has no certificate.
    RefusedNocertificate,
    /// The claim has `given` vectors or weights instead of `wanted`: a vector for each element, or a weight for
    /// each triple on which the chirotope isn't 0.
    RefusedNumber {
        wanted: u32,
        given: u32,
    },
    /// The first three elements whose vectors have a triple product with the wrong sign.
    RefusedWrongsign {
        triple: Subset,
    },
    /// Entry `entry`, counted from 1, is the first that is not a lawful statement of the chirotope.
    RefusedUnlawful {
        entry: u32,
    },
    /// The first bracket that occurs `small` times on the small sides and `big` times on the big ones, with `small`
    /// ≠ `big`.
    RefusedUnbalanced {
        bracket: Subset,
        small: u128,
        big: u128,
    },
    /// No entry is strict.
    RefusedNostrict,
    /// Weight `entry`, counted from 1, is the first whose bracket isn't the one expected at its place.
    RefusedBracket {
        entry: u32,
    },
    /// The first lawful statement that the weights don't satisfy.
    RefusedWeightfails {
        statement: Statement,
    },
}
