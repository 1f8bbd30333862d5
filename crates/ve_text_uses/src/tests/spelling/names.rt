ghost use Rattle.std.specs.Prelude.{IsTrue};
ghost use Rattle.std.specs.List.{list_all};
ghost use Rattle.ve_theory.specs.Validity.{is_name};

use std::test::Fail;
use ve_word::{NameFault, Names};

/// Names in the order in which they are added, and the answers.
const ADDED: &[(&str, Result<u8, NameFault>)] = &[
    ("x", Ok(0)),
    ("x", Err(NameFault::Taken(0))),
    ("e1", Err(NameFault::Rooted)),
    ("e", Ok(1)),
    ("e1x", Ok(2)),
    ("E1", Ok(3)),
    ("_", Ok(4)),
    ("e007", Err(NameFault::Rooted)),
    ("_", Err(NameFault::Taken(4))),
];

/// Texts, and the letters whose names they are.
const FOUND: &[(&str, Option<u8>)] = &[
    ("x", Some(0)),
    ("e1x", Some(2)),
    ("e1", None),
    ("b", None),
    ("", None),
];

#[test]
fn names_are_numbered(rt: HostRuntime) -> Result<(), Fail> {
    let mut names = Names::new(rt.alloc());
    assert!(rt; adds(&mut names, ADDED));
    assert!(rt; finds(&names.copy()?, FOUND));
    Ok(())
}

fn adds(names: &mut Names, cases: &[(&str, Result<u8, NameFault>)]) -> bool
    requires { IsTrue (list_all (λ case. is_name case.0.now) cases.now) }
{
    for &(name, answer) in cases {
        if names.add(name) != answer {
            return false;
        }
    }
    true
}

fn finds(names: &Names, cases: &[(&str, Option<u8>)]) -> bool {
    names.count() == 5
        && cases
            .iter()
            .all(|&(name, letter)| names.find(name) == letter)
}
