//! Where texts are cut, and which beginnings of a text are read.

use std::test::Fail;
use ve_read::{read, split};

/// Bytes, and where they are cut: behind the first line that says `end`.
const CASES: &[(&[u8], usize)] = &[
    (b"", 0),
    (b"\n", 1),
    (b"end", 3),
    (b"end\n", 4),
    (b"end\nrest", 4),
    (b" end\nx", 5),
    (b"end # c\nx", 8),
    (b"end\r\nx", 5),
    (b"\tend\r", 5),
    (b"# end\nend\n\n", 10),
    (b"ends\nx", 6),
    (b"end end\nx", 9),
    (b"end 1\nend\ny", 10),
    (b"end $\nend\nend\n", 10),
    (b"end 1234567890123456789\nx", 25),
    (b"relation end = 0\nend\nx", 21),
    (b"end=\nend#\n#", 10),
    (b"x\nEnd\n", 6),
    (b"\xff\nend\n\xff", 6),
    (b"en\nd\n", 5),
    (
        b"venum 1\nprime 2\nletter x\nmodule 1\nrelation x^2 = 1\nend\nvenum-answer 1\nprime 2\nletters x\nmodule 1\nclosed 3\ndimension 2\nbasis e1\nbasis e1*x\nimage 1 0\nletter x\nrow 0 1\nrow 1 0\nend\n",
        55,
    ),
    (
        b"venum 1\nprime 2\nletter x\nmodule 1\nrelation x^2 = 1\nend\n",
        55,
    ),
    (
        b"venum 1\nprime 2\nletter x\nmodule 1\nrelation x^2 = 1\nend",
        54,
    ),
    (b"venum\nletter end\nend\nend\n", 21),
    (b"(end\nend)\nend (\n", 16),
    (b"end#\x00\xff$\n1", 8),
];

const TWO_CYCLE: &[u8] = b"venum 1\nprime 2\nletter x\nmodule 1\nrelation x^2 = 1\nend\n";

#[test]
fn texts_are_cut_behind_their_end(rt: HostRuntime) {
    for (text, place) in CASES {
        assert!(rt; split(text) == *place, "at {place}");
    }
}

// The last line feed alone is not missed.
#[test]
fn beginnings_of_a_text_are_refused(rt: HostRuntime) {
    for end in 0..TWO_CYCLE.len() {
        let is_read = read(rt.alloc(), &TWO_CYCLE[..end]).is_ok();
        assert!(rt; is_read == (end + 1 == TWO_CYCLE.len()), "at {end}");
    }
}
