ghost use Rattle.std.specs.Prelude.{◌≡◌, ◌<◌, ◌≤◌, IfNone, IfSome};
ghost use Rattle.om_grassmann.specs.declared.frame.Frame.{Frame};
ghost use Rattle.om_grassmann.specs.Walk.{IsFrame, frame_of, frame_place};

use super::statement::Statement;
use om_signs::MAX_ELEMENTS;

/// An element a and four increasing elements, one of which may be a. Frames are ordered lexicographically.
#[derive(Clone, Copy)]
pub struct Frame {
    pub a: u8,
    pub b: u8,
    pub c: u8,
    pub d: u8,
    pub e: u8,
}

impl Frame {
    /// The elements of a statement.
    pub fn of(st: Statement) -> Frame
        ensures { result ≡ frame_of st }
    {
        Frame {
            a: st.a,
            b: st.b,
            c: st.c,
            d: st.d,
            e: st.e,
        }
    }

    /// The first frame.
    pub fn first() -> Frame
        ensures { result ≡ record { a = 1; b = 1; c = 2; d = 3; e = 4 } }
    {
        Frame {
            a: 1,
            b: 1,
            c: 2,
            d: 3,
            e: 4,
        }
    }

    /// The next frame of elements of 1 to n, or None if this is the last one.
    pub fn next(self, n: u8) -> Option<Frame>
        requires high { n ≤ MAX_ELEMENTS }
        requires frame { IsFrame n self }
        ensures last { IfNone result ((g : Frame) → IsFrame n g → frame_place g ≤ frame_place self) }
        ensures frame { IfSome result (λ f. IsFrame n f) }
        ensures later { IfSome result (λ f. frame_place self < frame_place f) }
        ensures next { IfSome result (λ f. (g : Frame) → IsFrame n g → frame_place self < frame_place g
            → frame_place f ≤ frame_place g) }
    {
        if self.e < n {
            Some(Frame {
                e: self.e + 1,
                ..self
            })
        } else if self.d + 1 < n {
            Some(Frame {
                d: self.d + 1,
                e: self.d + 2,
                ..self
            })
        } else if self.c + 2 < n {
            Some(Frame {
                c: self.c + 1,
                d: self.c + 2,
                e: self.c + 3,
                ..self
            })
        } else if self.b + 3 < n {
            Some(Frame {
                b: self.b + 1,
                c: self.b + 2,
                d: self.b + 3,
                e: self.b + 4,
                ..self
            })
        } else if self.a < n {
            Some(Frame {
                a: self.a + 1,
                b: 1,
                c: 2,
                d: 3,
                e: 4,
            })
        } else {
            None
        }
    }
}
