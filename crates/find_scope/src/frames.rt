//! What waits in a halving, in a stack of fixed size.

ghost use Rattle.std.specs.Prelude.{◌≡◌, ◌<◌, List, [], ◌∷◌, length, IfSome, IfNone};

use assign::VarSet;
use std::marker::Model;

/// What is done once a set is found.
#[derive(Clone, Copy, Debug)]
pub enum Frame {
    /// The first half is halved, beside the base and what is found.
    ThenFirst { base: VarSet, first: VarSet },
    /// What is found joins this.
    Joins { found: VarSet },
}

/// At most eight frames, the latest on top.
#[derive(Drop)]
pub struct Frames {
    /// The lowest frame first; those from `count` on have no meaning.
    slots: [Frame; 8],
    count: usize,
}

impl Model for Frames {
    ghost use Rattle.std.specs.Prelude.{List, ◌≤◌, take, reverse};
    ghost use Rattle.find_scope.specs.declared.frames.Frame.{Frame};

    ghost Value = { List Frame };

    ghost view = { λ f. reverse (take f.count f.slots) };

    ghost invariant = { λ f. f.count ≤ 8 };
}

impl Frames {
    /// No frame.
    pub fn none() -> Frames
        ensures { result ≡ [] }
    {
        Frames {
            slots: [Frame::Joins {
                found: VarSet::empty(),
            }; 8],
            count: 0,
        }
    }

    /// Puts a frame on top of fewer than eight.
    pub fn push(&mut self, frame: Frame)
        requires { length self.old < 8 }
        ensures { self.new ≡ frame ∷ self.old }
    {
        self.slots[self.count] = frame;
        self.count += 1;
    }

    /// Takes the frame off the top; `None` where there is none.
    pub fn pop(&mut self) -> Option<Frame>
        ensures top { IfSome result (λ frame. self.old ≡ frame ∷ self.new) }
        ensures empty { IfNone result (self.old ≡ []) }
        ensures still { IfNone result (self.new ≡ []) }
    {
        if self.count == 0 {
            return None;
        }
        self.count -= 1;
        Some(self.slots[self.count])
    }
}
