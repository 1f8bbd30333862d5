use super::{is_below, word_of};
use std::cmp::Ordering;
use std::cmp::Ordering::{Equal, Greater, Less};
use std::test::Fail;
use ve_word::{Word, shortlex, weighted};

// Two words, each a root and letters, and their orders by length and by weight. The letters 0, 1 and 2 weigh 3, 1 and 0.
const PAIRS: &[(u8, &[u8], u8, &[u8], Ordering, Ordering)] = &[
    (0, &[1], 1, &[0], Less, Less),
    (1, &[], 0, &[0], Less, Less),
    (0, &[0, 0], 1, &[1], Greater, Greater),
    (2, &[1, 0, 2], 2, &[1, 2, 0], Less, Less),
    (2, &[1, 2, 0], 2, &[1, 2, 0], Equal, Equal),
    (0, &[], 0, &[], Equal, Equal),
    (255, &[], 254, &[], Greater, Greater),
    (0, &[0], 0, &[1], Less, Greater),
    (0, &[1, 1], 0, &[0], Greater, Less),
    (0, &[1, 1, 1], 0, &[0], Greater, Greater),
    (1, &[0], 0, &[1, 1, 1], Less, Greater),
    (0, &[1], 0, &[1, 2], Less, Equal),
    (0, &[2, 1], 0, &[1], Greater, Greater),
];

#[test]
fn shorter_or_lighter_words_come_first(rt: HostRuntime) -> Result<(), Fail> {
    let weights = vec![in rt.alloc(); 3, 1, 0]?;
    for (first_root, first_letters, second_root, second_letters, by_length, by_weight) in PAIRS {
        let first = word_of(rt.alloc(), *first_root, first_letters)?;
        let second = word_of(rt.alloc(), *second_root, second_letters)?;
        assert!(rt; orders(&first, &second, &weights) == Some((*by_length, *by_weight)));
    }
    Ok(())
}

/// The orders of two words of letters that have weights.
fn orders(first: &Word, second: &Word, weights: &Vec<u8>) -> Option<(Ordering, Ordering)> {
    if !is_below(first, weights.len()) || !is_below(second, weights.len()) {
        return None;
    }
    Some((shortlex(first, second), weighted(first, second, weights)))
}
