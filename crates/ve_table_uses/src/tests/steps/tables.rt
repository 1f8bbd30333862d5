//! Tables that grow while no relation is imposed.

use super::{Case, Look, Step};

pub(super) const CASES: &[Case] = &[
    Case {
        text: INVOLUTION,
        steps: &[
            Step::Shows(Look::Counts(0, 1, 1)),
            Step::Shows(Look::NextSize(2)),
            Step::Shows(Look::Row(0, 0, None)),
            Step::Grow(&[2, 3]),
            Step::Shows(Look::Counts(2, 3, 3)),
            Step::Shows(Look::Origin(1, 0, 0)),
            Step::Shows(Look::Origin(2, 1, 0)),
            Step::Shows(Look::Row(0, 0, Some(&[(1, 1)]))),
            Step::Shows(Look::Row(1, 0, Some(&[(2, 1)]))),
            Step::Shows(Look::Row(2, 0, None)),
            Step::Shows(Look::Row(0, 1, None)),
            Step::Shows(Look::Row(3, 0, None)),
            Step::Shows(Look::NextSize(4)),
        ],
    },
    // What is put back stays.
    Case {
        text: INVOLUTION,
        steps: &[
            Step::Grow(&[2]),
            Step::PutBack(0, 0),
            Step::Shows(Look::Row(1, 0, None)),
            Step::DropNone,
            Step::Shows(Look::Row(0, 0, Some(&[(1, 1)]))),
            Step::Shows(Look::Row(1, 0, None)),
            Step::Shows(Look::Counts(1, 2, 2)),
        ],
    },
    Case {
        text: WEIGHTED,
        steps: &[
            Step::Grow(&[2, 4, 7, 12]),
            Step::Shows(Look::FirstOfReach(2, 2)),
            Step::Shows(Look::LeastDead(None)),
            Step::Shows(Look::Origin(1, 0, 1)),
            Step::Shows(Look::Origin(2, 0, 0)),
            Step::Shows(Look::Origin(3, 1, 1)),
            Step::Shows(Look::Origin(4, 2, 1)),
            Step::Shows(Look::Origin(5, 1, 0)),
            Step::Shows(Look::Origin(6, 3, 1)),
            Step::Shows(Look::Origin(7, 2, 0)),
            Step::Shows(Look::Origin(8, 4, 1)),
            Step::Shows(Look::Origin(9, 5, 1)),
            Step::Shows(Look::Origin(10, 3, 0)),
            Step::Shows(Look::Origin(11, 6, 1)),
            Step::Shows(Look::Reach(0, 0, 0)),
            Step::Shows(Look::Reach(1, 1, 1)),
            Step::Shows(Look::Reach(2, 2, 1)),
            Step::Shows(Look::Reach(3, 2, 2)),
            Step::Shows(Look::Reach(6, 3, 3)),
            Step::Shows(Look::Reach(7, 4, 2)),
            Step::Shows(Look::Reach(11, 4, 4)),
            Step::Shows(Look::Row(2, 0, Some(&[(7, 1)]))),
            Step::Shows(Look::Row(3, 0, Some(&[(10, 1)]))),
            Step::Shows(Look::Row(4, 0, None)),
            Step::Shows(Look::Row(4, 1, Some(&[(8, 1)]))),
            Step::Shows(Look::Row(7, 1, None)),
        ],
    },
];

/// One letter that is its own inverse.
const INVOLUTION: &str = "venum 1\nprime 2\ninvolution x\nmodule 1\nend\n";

/// Letters of weights 2 and 1 without relations. At level 4 the words are e1*y; e1*x, e1*y*y; e1*x*y, e1*y*x, e1*y*y*y; e1*x*x,
/// e1*x*y*y, e1*y*x*y, e1*y*y*x, e1*y*y*y*y, behind e1.
const WEIGHTED: &str = "venum 2\nprime 3\nletter x weight 2\nletter y\nmodule 1\nend\n";
