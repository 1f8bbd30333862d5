//! Examples, from their text to what is left of their tables.

use super::{Case, Look, Step};

pub(super) const CASES: &[Case] = &[
    // On the words e1, e1*x and e1*x*x.
    Case {
        text: "venum 1\nprime 2\nletter x\nmodule 1\nrelation x^2 = 1\nend\n",
        steps: &[
            Step::Grow(&[2, 3]),
            Step::Shows(Look::Row(0, 0, Some(&[(1, 1)]))),
            Step::Shows(Look::Row(1, 0, Some(&[(2, 1)]))),
            Step::Shows(Look::Row(2, 0, None)),
            Step::Shows(Look::Forward(2, None)),
            Step::Relator(0, 0, &[(2, 1), (0, 1)], Some(2)),
            Step::Shows(Look::Forward(2, Some(&[(0, 1)]))),
            Step::Resolve(&[(2, 1)], &[(0, 1)]),
            Step::Resolve(&[(1, 1)], &[(1, 1)]),
            Step::Rewrite(1, true, &[(0, 1)]),
            Step::Rewrite(1, false, &[(0, 1)]),
            Step::Rewrite(0, false, &[(1, 1)]),
            Step::Relator(0, 0, &[], None),
            Step::Shows(Look::NextSize(2)),
        ],
    },
    // On the words e1, e2, e1*x and e2*x.
    Case {
        text: "venum 1\nprime 3\nletter x\nmodule 2\nrelation x^2 = 1\nsub e2 = e1*x\nend\n",
        steps: &[
            Step::Grow(&[4]),
            Step::Submodule(0, &[(2, 2), (1, 1)], Some(2)),
            Step::Shows(Look::Forward(2, Some(&[(1, 1)]))),
            Step::Rewrite(0, true, &[(1, 1)]),
        ],
    },
    // On the words e1, e1*x and e1*x*x, of reach 0, 2 and 4.
    Case {
        text: "venum 2\nprime 2\nletter x weight 2\nmodule 1\nrelation x^2 = 1\nend\n",
        steps: &[
            Step::Grow(&[1, 2, 2, 3]),
            Step::Relator(0, 0, &[(2, 1), (0, 1)], Some(2)),
            Step::Rewrite(1, true, &[(0, 1)]),
            Step::Shows(Look::NextSize(2)),
        ],
    },
];
