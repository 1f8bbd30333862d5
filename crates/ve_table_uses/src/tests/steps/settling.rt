//! Vectors that are deleted, resolved and put in each other's place, on tables where every vector vanishes.

use super::{Case, Step};

pub(super) const CASES: &[Case] = &[
    // On the words e1, e1*x, e1*x*x.
    Case {
        text: MODULO_2,
        steps: &[
            Step::Grow(&[2, 3]),
            Step::Delete(&[(2, 1), (0, 1)], Some(2), &[(0, 1)]),
            Step::Resolve(&[(2, 1)], &[(0, 1)]),
            Step::Rewrite(1, true, &[(0, 1)]),
            Step::Rewrite(1, false, &[(0, 1)]),
            Step::Rewrite(0, false, &[(1, 1)]),
            Step::Delete(&[], None, &[]),
        ],
    },
    // On the words from e1 to e1*x*x*x*x.
    Case {
        text: MODULO_5,
        steps: &[
            Step::Grow(&[2, 3, 4, 5]),
            // The forward is divided by the negative of the coefficient.
            Step::Delete(&[(4, 2), (3, 4), (1, 1)], Some(4), &[(3, 3), (1, 2)]),
            Step::Delete(&[(3, 3), (2, 1), (0, 4)], Some(3), &[(2, 3), (0, 2)]),
            Step::Image(3, &[(4, 1), (3, 2), (1, 3)]),
            // The forward of 4 has 3 in it, which is dead too.
            Step::Resolve(&[(4, 1)], &[(2, 4), (1, 2), (0, 1)]),
            Step::Resolve(&[(4, 1), (3, 2)], &[(1, 2)]),
            Step::Resolve(&[(4, 1), (2, 1), (1, 3), (0, 4)], &[]),
            Step::Resolve(&[(2, 4), (0, 3)], &[(2, 4), (0, 3)]),
            Step::Resolve(&[], &[]),
            // A dead id that a forward brings in stays for the next time.
            Step::Rewrite(3, true, &[(3, 3), (1, 2)]),
            Step::Rewrite(3, true, &[(2, 4), (1, 2), (0, 1)]),
            Step::Rewrite(3, false, &[(2, 4), (1, 2), (0, 1)]),
            Step::Rewrite(2, true, &[(2, 3), (0, 2)]),
            Step::Image(3, &[]),
            // Both ids of the row die, and the forward of one brings the other back.
            Step::Delete(&[(2, 1), (0, 4)], Some(2), &[(0, 1)]),
            Step::Delete(&[(0, 3)], Some(0), &[]),
            Step::Rewrite(2, true, &[(0, 3)]),
            Step::Rewrite(2, true, &[]),
            Step::Rewrite(3, true, &[(1, 2), (0, 4)]),
            Step::Resolve(&[(4, 1), (3, 1), (2, 1), (1, 1), (0, 1)], &[(1, 3)]),
        ],
    },
    // Forwards of six terms, where all but the last come to have dead ids.
    Case {
        text: MODULO_5,
        steps: &[
            Step::Grow(&[2, 3, 4, 5, 6, 7, 8, 9, 10]),
            Step::Delete(
                &[(9, 1), (8, 4), (7, 2), (6, 1), (5, 3), (4, 2), (3, 4)],
                Some(9),
                &[(8, 1), (7, 3), (6, 4), (5, 2), (4, 3), (3, 1)],
            ),
            Step::Resolve(
                &[(9, 2), (7, 1), (0, 3)],
                &[(8, 2), (7, 2), (6, 3), (5, 4), (4, 1), (3, 2), (0, 3)],
            ),
            Step::Delete(
                &[(8, 3), (7, 1), (5, 2), (4, 4), (2, 1), (1, 3), (0, 2)],
                Some(8),
                &[(7, 3), (5, 1), (4, 2), (2, 3), (1, 4), (0, 1)],
            ),
            Step::Delete(
                &[(7, 2), (6, 4), (5, 1), (4, 3), (3, 1), (1, 2), (0, 4)],
                Some(7),
                &[(6, 3), (5, 2), (4, 1), (3, 2), (1, 4), (0, 3)],
            ),
            // A forward of two terms beside the wide ones.
            Step::Delete(&[(6, 1), (5, 2), (0, 4)], Some(6), &[(5, 3), (0, 1)]),
            Step::Resolve(&[(9, 1)], &[(5, 1), (4, 1), (3, 3), (2, 3), (1, 3), (0, 1)]),
            Step::Resolve(&[(9, 3), (8, 1), (6, 2)], &[(5, 3), (4, 3), (2, 2), (0, 4)]),
            Step::Resolve(
                &[(9, 1), (8, 2), (7, 3), (6, 4), (5, 1), (4, 2), (3, 3)],
                &[(4, 1), (3, 4), (2, 4), (1, 2), (0, 1)],
            ),
            Step::Resolve(
                &[(9, 1), (5, 4), (4, 4), (3, 2), (2, 2), (1, 2), (0, 4)],
                &[],
            ),
        ],
    },
    // More terms than are changed in place.
    Case {
        text: MODULO_3,
        steps: &[
            Step::Grow(&[
                2, 3, 4, 5, 6, 7, 8, 9, 10, 11, 12, 13, 14, 15, 16, 17, 18, 19, 20, 21,
            ]),
            Step::Delete(&[(20, 1), (5, 2)], Some(20), &[(5, 1)]),
            Step::Delete(&[(18, 1), (7, 1), (3, 1)], Some(18), &[(7, 2), (3, 2)]),
            Step::Delete(&[(7, 1), (3, 1)], Some(7), &[(3, 2)]),
            Step::Resolve(
                &[
                    (20, 1),
                    (19, 1),
                    (18, 1),
                    (17, 1),
                    (16, 1),
                    (15, 1),
                    (14, 1),
                    (13, 1),
                    (12, 1),
                    (11, 1),
                    (10, 1),
                    (9, 1),
                    (8, 1),
                    (7, 1),
                    (6, 1),
                    (5, 1),
                    (4, 1),
                ],
                &[
                    (19, 1),
                    (17, 1),
                    (16, 1),
                    (15, 1),
                    (14, 1),
                    (13, 1),
                    (12, 1),
                    (11, 1),
                    (10, 1),
                    (9, 1),
                    (8, 1),
                    (6, 1),
                    (5, 2),
                    (4, 1),
                    (3, 2),
                ],
            ),
        ],
    },
];

// One generator and one letter under the relation 1 = 0.
const MODULO_2: &str = "venum 1\nprime 2\nletter x\nmodule 1\nrelation 1 = 0\nend\n";

const MODULO_3: &str = "venum 1\nprime 3\nletter x\nmodule 1\nrelation 1 = 0\nend\n";

const MODULO_5: &str = "venum 1\nprime 5\nletter x\nmodule 1\nrelation 1 = 0\nend\n";
