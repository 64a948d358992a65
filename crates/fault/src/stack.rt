// The statements that are open.
ghost use Rattle.std.specs.Prelude.{◌≤◌};
ghost use Rattle.grammar.specs.Limits.{max_source};

// What is open: a bracket in its first branch or in a later one, a body, a then branch, an else branch, a suspend, an abort.
#[derive(Clone, Copy)]
pub(crate) enum Frame {
    First,
    Branch,
    Body,
    Then,
    Else,
    Suspended,
    Aborted,
}

// The open statements, from the outermost on.
#[derive(Drop)]
pub(crate) struct Stack {
    // Fixed memory: an array with room for as many as a text may have bytes, and how many of them are in use. It is not the kit's
    // `ArrayVec`, since the archive for C stands on no crate of the kit (crates.txt).
    frames: [Frame; grammar::MAX_SOURCE],
    height: usize,
    ghost in_room: { height ≤ max_source },
}

impl Stack {
    ghost use Rattle.std.specs.Prelude.{◌≡◌, ◌<◌, IfSome};
    ghost use Rattle.grammar.specs.Machine as M;
    ghost use Rattle.fault.specs.Walking.{Stacked, StackedBelow, frame_of, top_of};

    // Nothing is open.
    pub(crate) fn new() -> Stack
        ensures { Stacked result M.top }
    {
        Stack {
            frames: [Frame::First; grammar::MAX_SOURCE],
            height: 0,
        }
    }

    // A statement is opened. That there is room for one more is no invariant: it holds at a token that is still to be read, so each
    // step from there to here asks it.
    pub(crate) fn push(&mut self, frame: Frame)
        requires { self.old.height < max_source }
        ensures { (f : M.Frame) (b : M.Before) (k : M.Open) → frame ≡ frame_of f → Stacked self.old k → Stacked self.new (M.within f b k) }
    {
        self.frames[self.height] = frame;
        self.height += 1;
    }

    // The innermost open statement is closed.
    pub(crate) fn pop(&mut self) -> Option<Frame>
        ensures room { IfSome result (λ f. self.new.height < max_source) }
        ensures top { (k : M.Open) → Stacked self.old k → (result ≡ top_of k) × StackedBelow self.new k }
    {
        if self.height == 0 {
            return None;
        }
        self.height -= 1;
        Some(self.frames[self.height])
    }
}
