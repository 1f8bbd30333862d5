use super::{is_below, word_of};
use std::alloc::Global;
use std::test::Fail;
use ve_word::{Memory, NameFault, Names, write_word};

#[tactic(auto, unfolding(ve_theory::specs::Validity::is_name))]
fn three_names(alloc: Global) -> Result<Names, NameFault> {
    let mut names = Names::new(alloc);
    names.add("a")?;
    names.add("b")?;
    names.add("long_1")?;
    Ok(names)
}

/// Words, each a root and letters, and their texts.
const WRITTEN: &[(u8, &[u8], &str)] = &[
    (0, &[1, 0], "sub e1*b*a"),
    (0, &[], "sub e1"),
    (1, &[0, 0], "sub e2*a*a"),
    (254, &[2, 1], "sub e255*long_1*b"),
    (255, &[], "sub e256"),
];

#[test]
fn words_are_written(rt: HostRuntime) -> Result<(), Fail> {
    let names = three_names(rt.alloc())?;
    for (root, letters, text) in WRITTEN {
        assert!(rt;
            is_written(rt.alloc(), &names, *root, letters, text)?,
            "{text}"
        );
    }
    Ok(())
}

/// Whether this is the text of a word behind what stands before it.
fn is_written(
    alloc: Global,
    names: &Names,
    root: u8,
    letters: &[u8],
    text: &str,
) -> Result<bool, Memory> {
    let word = word_of(alloc, root, letters)?;
    if !is_below(&word, usize::from(names.count())) {
        return Ok(false);
    }
    let mut line = Vec::from_slice(alloc, b"sub ")?;
    write_word(&word, names, &mut line)?;
    Ok(line.as_slice() == text.as_bytes())
}
