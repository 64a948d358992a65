// The three figures that the answer of each call tells. The 3 is written out: the must-fail edit `short_answer_accepted` changes FIGURES
// alone, and could not be compiled if these arrays went with it.

ghost use Rattle.std.specs.Prelude.{◌≡◌, ℕ, List};
ghost use Rattle.abi.specs.Figures.{number_figures, analysed_figures, reaction_figures, reading_figures, fault_figures, tick_figures, fetched_figures, span_figures, longest_figures, asked_figures, tried_figures};

use analysis::Analysed;
use blocks::{Fetched, Span};
use instant::Reaction;
use planning::Longest;
use question::Asked;
use text::{Fault, Reading};
use trial::Tried;
use witness::Tick;

pub(crate) trait Figures {
    ghost tells: { Self → List ℕ };

    fn figures(self) -> [u64; 3]
        ensures { result ≡ tells self };
}

// A length or a number alone.
impl Figures for usize {
    ghost tells = { number_figures };

    fn figures(self) -> [u64; 3] {
        [self as u64, 0, 0]
    }
}

impl Figures for Analysed {
    ghost tells = { analysed_figures };

    fn figures(self) -> [u64; 3] {
        [self.nodes as u64, self.loops as u64, 0]
    }
}

impl Figures for Reaction {
    ghost tells = { reaction_figures };

    fn figures(self) -> [u64; 3] {
        [self.code as u64, self.taken as u64, self.entries as u64]
    }
}

impl Figures for Reading {
    ghost tells = { reading_figures };

    fn figures(self) -> [u64; 3] {
        [self.nodes as u64, self.signals as u64, 0]
    }
}

// Why a text is refused and where, or zeros.
impl Figures for Option<Fault> {
    ghost tells = { fault_figures };

    fn figures(self) -> [u64; 3] {
        match self {
            Some(fault) => [
                fault.refusal.check as u64,
                fault.refusal.node as u64,
                fault.place as u64,
            ],
            None => [0; 3],
        }
    }
}

impl Figures for Tick {
    ghost tells = { tick_figures };

    fn figures(self) -> [u64; 3] {
        match self {
            Tick::Ends { node, length } => [1, node as u64, length as u64],
            Tick::Accepted { nodes, loops } => [0, nodes as u64, loops as u64],
        }
    }
}

impl Figures for Fetched {
    ghost tells = { fetched_figures };

    fn figures(self) -> [u64; 3] {
        [
            self.length as u64,
            u64::from(self.edition),
            u64::from(self.parts),
        ]
    }
}

impl Figures for Span {
    ghost tells = { span_figures };

    fn figures(self) -> [u64; 3] {
        [self.from as u64, self.length as u64, 0]
    }
}

impl Figures for Longest {
    ghost tells = { longest_figures };

    fn figures(self) -> [u64; 3] {
        [self.entries as u64, self.length as u64, 0]
    }
}

impl Figures for Asked {
    ghost tells = { asked_figures };

    fn figures(self) -> [u64; 3] {
        [u64::from(self.answer), self.count as u64, 0]
    }
}

impl Figures for Tried {
    ghost tells = { tried_figures };

    fn figures(self) -> [u64; 3] {
        [self.set, self.presents as u64, 0]
    }
}
