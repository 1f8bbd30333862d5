//! Which numbers have a presentation, and how large it is.

use std::test::Fail;
use ve_make::make;

/// Points, node, prime, and how many relators and submodule relations there are; none where there is no presentation.
const MADE: &[(u64, u64, u64, Option<(u32, u32)>)] = &[
    (2, 1, 2, Some((1, 0))),
    (3, 2, 3, Some((3, 1))),
    (25, 24, 251, Some((300, 23))),
    (1, 1, 3, None),
    (26, 1, 3, None),
    (3, 0, 3, None),
    (3, 3, 3, None),
    (3, 2, 9, None),
];

#[test]
fn made(rt: HostRuntime) -> Result<(), Fail> {
    for (points, node, prime, counts) in MADE {
        let made = make(rt.alloc(), *points, *node, *prime)?;
        let found = match &made {
            Some(presentation) => Some((presentation.relator_count(), presentation.sub_count())),
            None => None,
        };
        assert!(rt; found == *counts, "{points} {node} {prime}");
    }
    Ok(())
}
