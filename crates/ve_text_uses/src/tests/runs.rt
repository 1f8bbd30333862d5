//! Runs from bytes to bytes: each row is an input, with what the streams do, and what the run leaves.

use super::strings;
use std::alloc::Global;
use std::test::Fail;
use ve_main::run_alone;
use ve_port::{MemSink, MemSource};
use ve_word::Memory;

const TWO_CYCLE: &str = "venum 1\nprime 2\nletter x\nmodule 1\nrelation x^2 = 1\nend\n";

const TWO_CYCLE_SHOWN: &str = "venum 1\nprime 2\nletter x\nmodule 1\nrelation x*x + 1 = 0\nend\n";

const TWO_CYCLE_ANSWER: &str =
    "venum-answer 1\nprime 2\nletters x\nmodule 1\nclosed 3\ndimension 2\nbasis e1\nbasis e1*x\nimage 1 0\nletter x\nrow 0 1\nrow 1 0\nend\n";

const FIELD_OF_FOUR: &str = "venum 1\nprime 2\nletter x\nmodule 1\nrelation x^2 = x + 1\nend\n";

/// Texts with their answers.
const ANSWERED: &[(&str, &str)] = &[
    (
        "venum 1\nprime 5\nletter x\nmodule 1\nrelation x = 1\nrelation x = 2\nend\n",
        "venum-answer 1\nprime 5\nletters x\nmodule 1\nclosed 1\ndimension 0\nimage\nletter x\nend\n",
    ),
    (
        "venum 1\nprime 7\nletter x inverse X\nmodule 1\nrelation x^3 = 1\nend\n",
        "venum-answer 1\nprime 7\nletters x X\nmodule 1\nclosed 4\ndimension 3\nbasis e1\nbasis e1*x\nbasis e1*X\nimage 1 0 0\nletter x\nrow 0 1 0\nrow 0 0 1\nrow 1 0 0\nletter X\nrow 0 0 1\nrow 1 0 0\nrow 0 1 0\nend\n",
    ),
    (
        "venum 1\nprime 3\nletter x\nmodule 2\nrelation x^2 = 1\nsub e2 = e1*x\nend\n",
        "venum-answer 1\nprime 3\nletters x\nmodule 2\nclosed 2\ndimension 2\nbasis e1\nbasis e2\nimage 1 0\nimage 0 1\nletter x\nrow 0 1\nrow 1 0\nend\n",
    ),
    (
        "venum 1\nprime 5\nletter x\nmodule 2\nrelation x = 1\nsub e2 = 3*e1\nend\n",
        "venum-answer 1\nprime 5\nletters x\nmodule 2\nclosed 1\ndimension 1\nbasis e1\nimage 1\nimage 3\nletter x\nrow 1\nend\n",
    ),
    (TRIANGLE, TRIANGLE_ANSWER),
    (
        FIELD_OF_FOUR,
        "venum-answer 1\nprime 2\nletters x\nmodule 1\nclosed 3\ndimension 2\nbasis e1\nbasis e1*x\nimage 1 0\nletter x\nrow 0 1\nrow 1 1\nend\n",
    ),
    (TWO_CYCLE, TWO_CYCLE_ANSWER),
    (TWO_CYCLE_SHOWN, TWO_CYCLE_ANSWER),
    // The idempotent cube, among comments and blanks.
    (
        "# a cube\n\nvenum 1\nprime 02 # two\n\tletter x\nmodule 1\nrelation x^3=x\nend # done\n",
        "venum-answer 1\nprime 2\nletters x\nmodule 1\nclosed 5\ndimension 3\nbasis e1\nbasis e1*x\nbasis e1*x*x\nimage 1 0 0\nletter x\nrow 0 1 0\nrow 0 0 1\nrow 0 1 0\nend\n",
    ),
    // The longer power on the right.
    (
        "venum 1\nprime 5\nletter x\nmodule 1\nrelation x = x^3\nend\n",
        "venum-answer 1\nprime 5\nletters x\nmodule 1\nclosed 5\ndimension 3\nbasis e1\nbasis e1*x\nbasis e1*x*x\nimage 1 0 0\nletter x\nrow 0 1 0\nrow 0 0 1\nrow 0 1 0\nend\n",
    ),
    (
        "venum 1\nprime 3\nletter long_Name_7\nmodule 1\nrelation 1 = long_Name_7\nend\n",
        "venum-answer 1\nprime 3\nletters long_Name_7\nmodule 1\nclosed 1\ndimension 1\nbasis e1\nimage 1\nletter long_Name_7\nrow 1\nend\n",
    ),
];

/// Texts with their canonical texts.
const SHOWN: &[(&str, &str)] = &[
    // The last line feed may be missing, and blanks may stand behind the end.
    (
        "venum 1\nprime 2\nletter x\nmodule 1\nrelation x^2 = 1\nend",
        TWO_CYCLE_SHOWN,
    ),
    (
        "venum 1\nprime 2\nletter x\nmodule 1\nrelation x^2 = 1\nend\n\n",
        TWO_CYCLE_SHOWN,
    ),
    (
        FIELD_OF_FOUR,
        "venum 1\nprime 2\nletter x\nmodule 1\nrelation x*x + x + 1 = 0\nend\n",
    ),
    // Signs of both kinds, and a letter with an inverse.
    (
        "venum 1\nprime 5\nletter x inverse X\nmodule 2\nrelation 7*x^-2 - (x + 1)*x = 3\nsub 2*e1*x = e2\nend\n",
        "venum 1\nprime 5\nletter x inverse X\nmodule 2\nrelation 2*X*X + 4*x*x + 4*x + 2 = 0\nsub 2*e1*x + 4*e2 = 0\nend\n",
    ),
    // The reflections of the triangle, and balanced.
    (
        "venum 1\nprime 3\ninvolution a\ninvolution b\nmodule 1\nrelation (a*b)^3 = 1\nsub e1*a = e1\nend\n",
        "venum 1\nprime 3\ninvolution a\ninvolution b\nmodule 1\nrelation a*b*a*b*a*b + 2 = 0\nsub e1*a + 2*e1 = 0\nend\n",
    ),
    (
        "venum 2\nprime 3\ninvolution a\ninvolution b\nmodule 1\nbalance\nrelation (a*b)^3 = 1\nsub e1*a = e1\nend\n",
        "venum 2\nprime 3\ninvolution a weight 1\ninvolution b weight 1\nmodule 1\nbalance\nrelation 2*b*a*b + a*b*a = 0\nsub e1*a + 2*e1 = 0\nend\n",
    ),
    // A relation that says nothing in balance.
    (
        "venum 2\nprime 7\nletter x inverse X\nmodule 1\nbalance\nrelation x^3 = 1\nrelation x*X = 1\nend\n",
        "venum 2\nprime 7\nletter x weight 1 inverse X weight 1\nmodule 1\nbalance\nrelation x*x + 6*X = 0\nend\n",
    ),
    // A weighted pair.
    (
        "venum 2\nprime 3\nletter x weight 3\nletter y\nmodule 1\nrelation x = y^2\nrelation y^3 = 1\nend\n",
        "venum 2\nprime 3\nletter x weight 3\nletter y weight 1\nmodule 1\nrelation 2*y*y + x = 0\nrelation y*y*y + 2 = 0\nend\n",
    ),
    // The inverse of an involution.
    (
        "venum 1\nprime 2\ninvolution x\nmodule 1\nrelation x^-1 = 1\nend\n",
        "venum 1\nprime 2\ninvolution x\nmodule 1\nrelation x + 1 = 0\nend\n",
    ),
    (
        "venum 1\nprime 3\nletter x\nmodule 1\nrelation (x + 1)^2 = 0\nend\n",
        "venum 1\nprime 3\nletter x\nmodule 1\nrelation x*x + 2*x + 1 = 0\nend\n",
    ),
    (
        "venum 1\nprime 5\nletter x\nmodule 1\nrelation 2*x = 3\nend\n",
        "venum 1\nprime 5\nletter x\nmodule 1\nrelation 2*x + 2 = 0\nend\n",
    ),
    (
        "venum 2\nprime 2\nletter x\nmodule 1\nrelation x^2 = 1\nend\n",
        "venum 2\nprime 2\nletter x weight 1\nmodule 1\nrelation x*x + 1 = 0\nend\n",
    ),
    (
        "venum 1\nprime 251\nmodule 3\nend\n",
        "venum 1\nprime 251\nmodule 3\nend\n",
    ),
    // A relation.
    (
        "venum 1\nprime 2\nletter x\nmodule 1\nrelation x^2 = 1\nend\n",
        "venum 1\nprime 2\nletter x\nmodule 1\nrelation x*x + 1 = 0\nend\n",
    ),
    // A pair.
    (
        "venum 1\nprime 7\nletter x inverse X\nmodule 1\nrelation x^3 = 1\nend\n",
        "venum 1\nprime 7\nletter x inverse X\nmodule 1\nrelation x*x*x + 6 = 0\nend\n",
    ),
    // Two generators.
    (
        "venum 1\nprime 3\nletter x\nmodule 2\nrelation x^2 = 1\nsub e2 = e1*x\nend\n",
        "venum 1\nprime 3\nletter x\nmodule 2\nrelation x*x + 2 = 0\nsub 2*e1*x + e2 = 0\nend\n",
    ),
    // A number times a generator.
    (
        "venum 1\nprime 5\nletter x\nmodule 2\nrelation x = 1\nsub e2 = 3*e1\nend\n",
        "venum 1\nprime 5\nletter x\nmodule 2\nrelation x + 4 = 0\nsub e2 + 2*e1 = 0\nend\n",
    ),
    // A comment before the first line.
    (
        "# A5\nvenum 1\nprime 2\ninvolution a\nletter b\nmodule 1\nrelation b^3 = 1\nrelation (a*b)^5 = 1\nsub e1*b = e1\nend\n",
        "venum 1\nprime 2\ninvolution a\nletter b\nmodule 1\nrelation b*b*b + 1 = 0\nrelation a*b*a*b*a*b*a*b*a*b + 1 = 0\nsub e1*b + e1 = 0\nend\n",
    ),
    // One weight.
    (
        "venum 2\nprime 2\nletter x weight 2\nmodule 1\nrelation x^2 = 1\nend\n",
        "venum 2\nprime 2\nletter x weight 2\nmodule 1\nrelation x*x + 1 = 0\nend\n",
    ),
    // Halves of pairs.
    (
        "venum 2\nprime 7\nletter x inverse X\nmodule 1\nbalance\nrelation x^3 = 1\nend\n",
        "venum 2\nprime 7\nletter x weight 1 inverse X weight 1\nmodule 1\nbalance\nrelation x*x + 6*X = 0\nend\n",
    ),
    // Balance alone.
    (
        "venum 2\nprime 2\nletter x\nmodule 1\nbalance\nend\n",
        "venum 2\nprime 2\nletter x weight 1\nmodule 1\nbalance\nend\n",
    ),
    // Weights of a pair and an involution.
    (
        "venum 2\nprime 7\nletter x weight 16 inverse X weight 1\ninvolution a weight 2\nletter y inverse Y weight 5\nmodule 3\nrelation x*a = 3*y\nsub e3*Y = 0\nend\n",
        "venum 2\nprime 7\nletter x weight 16 inverse X weight 1\ninvolution a weight 2\nletter y weight 1 inverse Y weight 5\nmodule 3\nrelation x*a + 4*y = 0\nsub e3*Y = 0\nend\n",
    ),
    // Words of the grammar as names.
    (
        "venum 1\nprime 2\nletter letter inverse inverse\ninvolution weight\nletter venum\nletter end\nletter e\nletter E1\nmodule 1\nrelation letter*inverse = weight\nend\n",
        "venum 1\nprime 2\nletter letter inverse inverse\ninvolution weight\nletter venum\nletter end\nletter e\nletter E1\nmodule 1\nrelation letter*inverse + weight = 0\nend\n",
    ),
    // Weight as a name with a weight.
    (
        "venum 2\nprime 2\nletter weight weight 2\nmodule 1\nend\n",
        "venum 2\nprime 2\nletter weight weight 2\nmodule 1\nend\n",
    ),
    // Leading zeros.
    (
        "venum 01\nprime 007\nletter x\nmodule 0002\nrelation 010*x^002 = 00\nsub 0 = 000\nsub 03*e1 = 0\nend\n",
        "venum 1\nprime 7\nletter x\nmodule 2\nrelation 3*x*x = 0\nsub 3*e1 = 0\nend\n",
    ),
    // Carriage returns and tabs.
    (
        "venum\t1\r\n prime 2\r\nletter x\r\n\r\nmodule 1 \r\nrelation x^2\t=1\r\nend\r\n",
        "venum 1\nprime 2\nletter x\nmodule 1\nrelation x*x + 1 = 0\nend\n",
    ),
    // No letters.
    (
        "venum 1\nprime 251\nmodule 255\nend\n",
        "venum 1\nprime 251\nmodule 255\nend\n",
    ),
    // Zero relations.
    (
        "venum 1\nprime 2\nletter x\nmodule 1\nrelation x = x\nrelation 2 = 0\nsub e1 = e1\nend\n",
        "venum 1\nprime 2\nletter x\nmodule 1\nend\n",
    ),
    // Signs at the front.
    (
        "venum 1\nprime 5\nletter x\nmodule 1\nrelation -x = + 2\nsub -e1*x = +0\nend\n",
        "venum 1\nprime 5\nletter x\nmodule 1\nrelation 4*x + 3 = 0\nsub 4*e1*x = 0\nend\n",
    ),
    // Numbers with many digits.
    (
        "venum 1\nprime 3\nletter x\nmodule 1\nrelation 999999999999999999*x = 000000000000000001\nend\n",
        "venum 1\nprime 3\nletter x\nmodule 1\nrelation 2 = 0\nend\n",
    ),
    // Power 0 and 1000.
    (
        "venum 1\nprime 2\nletter x\nmodule 1\nrelation (x + 1)^0 = x^1000*0\nend\n",
        "venum 1\nprime 2\nletter x\nmodule 1\nrelation 1 = 0\nend\n",
    ),
    // Brackets.
    (
        "venum 1\nprime 5\nletter a\nletter b\nmodule 1\nrelation ((a)^2)^2*(b - (a - 2)) = 0\nsub e1*(a + b)*(a - b) - 2*e1 = e1*a^2*0 + 0\nend\n",
        "venum 1\nprime 5\nletter a\nletter b\nmodule 1\nrelation a*a*a*a*b + 4*a*a*a*a*a + 2*a*a*a*a = 0\nsub 4*e1*b*b + e1*b*a + 4*e1*a*b + e1*a*a + 3*e1 = 0\nend\n",
    ),
];

/// Texts that are refused, with the first line that is refused, and its first fault.
type Refusals = &'static [(&'static str, &'static str)];

/// Single faults.
const FAULTS: Refusals = &[
    (
        "venum 1\nprime 2\nletter x\nmodule 1\nrelation x^2 = 1\n",
        "line 6: end is missing",
    ),
    (
        "venum 1\nprime 2\nletter x\nmodule 1\nrelation x^2 = 1\nend\nend\n",
        "line 7: text after end",
    ),
    (
        "venum 1\nprime 2\nletter x\nmodule 1\nrelation x^2 = 1\nend\n$\n",
        "line 7: text after end",
    ),
    (
        "venum 1\nprime 2\nletter x\nmodule 1\nrelation x^2 = 1\nen",
        "line 6: this line is not expected here",
    ),
    (
        "venum 1\nprime 2\nletter x\nmodule 0\nrelation x^2 = 1\nend\n",
        "line 4: this line is not expected here",
    ),
    ("venum 3\n", "line 1: this line is not expected here"),
    (
        "venum 1\nletter x\n",
        "line 2: this line is not expected here",
    ),
    (
        "venum 1\nprime 9\nletter x\nmodule 1\nend\n",
        "line 2: not a prime below 256",
    ),
    (
        "venum 1\nprime 257\nletter x\nmodule 1\nend\n",
        "line 2: not a prime below 256",
    ),
    (
        "venum 1\nprime 2\nletter x\nletter x\n",
        "line 4: name already taken",
    ),
    (
        "venum 1\nprime 2\nletter e12\n",
        "line 3: name already taken",
    ),
    (
        "venum 2\nprime 2\nletter x weight 17\nmodule 1\nend\n",
        "line 3: weight not from 1 to 16",
    ),
    (
        "venum 1\nprime 2\nletter x weight 2\nmodule 1\nend\n",
        "line 3: this line is not expected here",
    ),
    (
        "venum 1\nprime 2\nletter x\nmodule 1\nbalance\nend\n",
        "line 5: this line is not expected here",
    ),
    (
        "venum 1\nprime 2\nletter x\nmodule 256\nend\n",
        "line 4: more than 255 module generators",
    ),
    (
        "venum 1\nprime 2\nletter x\nmodule 1\nrelation y = 1\nend\n",
        "line 5: unknown name",
    ),
    (
        "venum 1\nprime 2\nletter x\nmodule 1\nrelation x^-1 = 1\nend\n",
        "line 5: no inverse",
    ),
    (
        "venum 1\nprime 2\nletter x\nmodule 1\nrelation x^1001 = 1\nend\n",
        "line 5: exponent above 1000",
    ),
    (
        "venum 1\nprime 2\nletter x\nmodule 1\nrelation x = $\nend\n",
        "line 5: byte 13 begins no token",
    ),
    (
        "venum 1\nprime 2\nletter x\nmodule 1\nrelation x = 1234567890123456789\nend\n",
        "line 5: number at byte 13 has more than 18 digits",
    ),
    (
        "venum 1\nprime 2\nletter a\nletter b\nmodule 1\nrelation (a + b)^13 = 0\nend\n",
        "line 6: 8192 terms, more than 4096",
    ),
    (
        "venum 1\nprime 2\nletter a\nletter b\nmodule 1\nrelation a^1000*b = 0\nend\n",
        "line 6: word of length 1001, more than 1000",
    ),
    (
        "venum 1\nprime 2\nletter a\nmodule 1\nrelation a^600*a^600*nope = 0\nend\n",
        "line 5: word of length 1200, more than 1000",
    ),
    (
        "venum 1\nprime 2\nletter a\nmodule 1\nsub 2 = 0\nend\n",
        "line 5: this line is not expected here",
    ),
    (
        "venum 1\nprime 2\nletter a\nletter b\nmodule 1\nrelation (a + b)^12*a^988 = 0\nrelation (a + b)^12*a^988 = 0\nrelation (a + b)^12*a^988 = 0\nend\n",
        "line 8: 12300288 cells, more than 8388608",
    ),
    (
        "venum 1\nprime 2\nmodule 1\nrelation 1 = 0\nletter x\n",
        "line 5: this line is not expected here",
    ),
    (
        "venum 1\nprime 0\nletter x\nmodule 1\nend\n",
        "line 2: not a prime below 256",
    ),
    (
        "venum 1\nprime 1\nletter x\nmodule 1\nend\n",
        "line 2: not a prime below 256",
    ),
    ("", "line 1: end is missing"),
    ("#", "line 2: end is missing"),
    ("\n\n", "line 3: end is missing"),
    (
        "venum 2\nprime 2\nletter x weight 17\nmodule 1\nrelation x^2 = 1\nend\n",
        "line 3: weight not from 1 to 16",
    ),
    (
        "venum 2\nprime 2\nletter x weight 0\nmodule 1\nrelation x^2 = 1\nend\n",
        "line 3: weight not from 1 to 16",
    ),
    (
        "venum 1\nprime 2\nletter x weight 2\nmodule 1\nrelation x^2 = 1\nend\n",
        "line 3: this line is not expected here",
    ),
];

/// Faults side by side: the first one is told.
const ORDER: Refusals = &[
    (
        "venum 1\nprime 2\nletter a\nmodule 1\nrelation nope*a^600*a^600 = 0\nend\n",
        "line 5: unknown name",
    ),
    (
        "venum 1\nprime 2\nletter a\nmodule 1\nrelation a^1001 = nope\nend\n",
        "line 5: exponent above 1000",
    ),
    (
        "venum 1\nprime 2\nletter a\nmodule 1\nrelation nope^1001 = 0\nend\n",
        "line 5: unknown name",
    ),
    (
        "venum 1\nprime 2\nletter a\nmodule 1\nrelation a^-1001 = 0\nend\n",
        "line 5: exponent above 1000",
    ),
    (
        "venum 1\nprime 2\nletter a\nmodule 1\nrelation (a + 1)^-1 = 0\nend\n",
        "line 5: no inverse",
    ),
    (
        "venum 2\nprime 2\nletter x\nletter x weight 17\nmodule 1\nend\n",
        "line 4: name already taken",
    ),
    (
        "venum 2\nprime 2\nletter e1 weight 17\nmodule 1\nend\n",
        "line 3: name already taken",
    ),
    (
        "venum 2\nprime 2\nletter x weight 17 inverse x\nmodule 1\nend\n",
        "line 3: weight not from 1 to 16",
    ),
    (
        "venum 2\nprime 2\nletter x inverse x weight 17\nmodule 1\nend\n",
        "line 3: name already taken",
    ),
    (
        "venum 2\nprime 2\nletter x inverse y weight 17\nmodule 1\nend\n",
        "line 3: weight not from 1 to 16",
    ),
    (
        "venum 2\nprime 2\nletter x weight 17 inverse e2 weight 0\nmodule 1\nend\n",
        "line 3: weight not from 1 to 16",
    ),
    (
        "venum 1\nprime 2\nletter x\nletter y inverse x\nmodule 1\nend\n",
        "line 4: name already taken",
    ),
    (
        "venum 1\nprime 2\nletter e007\nmodule 1\nend\n",
        "line 3: name already taken",
    ),
    (
        "venum 1\nprime 2\nletter x inverse e0\nmodule 1\nend\n",
        "line 3: name already taken",
    ),
    (
        "venum 1\nprime 2\nletter x weight 2 inverse y\nmodule 1\nend\n",
        "line 3: this line is not expected here",
    ),
    (
        "venum 1\nprime 2\nletter x inverse y weight 2\nmodule 1\nend\n",
        "line 3: this line is not expected here",
    ),
    (
        "venum 1\nprime 2\ninvolution x weight 2\nmodule 1\nend\n",
        "line 3: this line is not expected here",
    ),
];

/// Depth, tokens, and what stands behind the end.
const TOKENS: Refusals = &[
    (
        "venum 1\nprime 2\nletter x\nmodule 1\nrelation (((((((((((((((((((((((((((((((((((((((((((((((((((((((((((((((((x))))))))))))))))))))))))))))))))))))))))))))))))))))))))))))))))) = 1\nend\n",
        "line 5: more than 64 open parentheses",
    ),
    (
        "venum 1\nprime 2\nletter x\nmodule 1\nnonsense )))((((((((((((((((((((((((((((((((((((((((((((((((((((((((((((((((((((\nend\n",
        "line 5: more than 64 open parentheses",
    ),
    (
        "venum 1\nprime 2\nletter x\nmodule 1\nnonsense )))(((((((((((((((((((((((((((((((((((((((((((((((((((((((((((((((((((\nend\n",
        "line 5: this line is not expected here",
    ),
    (
        "venum 1\nprime 2\nletter x\nmodule 1\nrelation ((((((((((((((((((((((((((((((((((((((((((((((((((((((((((((((((x = 1\nend\n",
        "line 5: this line is not expected here",
    ),
    (
        "venum 1\nprime 2\nletter x\nmodule 1\nrelation 1234567890123456789 = $\nend\n",
        "line 5: number at byte 9 has more than 18 digits",
    ),
    (
        "venum 1\nprime 2\nletter x\nmodule 1\nrelation 000000000000000001*x = 0000000000000000001\nend\n",
        "line 5: number at byte 32 has more than 18 digits",
    ),
    (
        "venum 1\nprime 2\nletter x\nmodule 1\n((((((((((((((((((((((((((((((((((((((((((((((((((((((((((((((((( $\nend\n",
        "line 5: byte 66 begins no token",
    ),
    (
        "venum 1\nprime 2\nletter x\nmodule 1\nrelation x^2 = 1\nend\n# fine\n 1234567890123456789\n",
        "line 8: text after end",
    ),
    (
        "venum 1\nprime 2\nletter x\nmodule 1\nrelation x^2 = 1\nend\n\n\r\n(((((((((((((((((((((((((((((((((((((((((((((((((((((((((((((((((\n",
        "line 9: text after end",
    ),
];

/// Lines out of place.
const PLACES: Refusals = &[
    (
        "venum 0\nprime 2\n",
        "line 1: this line is not expected here",
    ),
    ("prime 2\n", "line 1: this line is not expected here"),
    (
        "venum 1\nvenum 1\n",
        "line 2: this line is not expected here",
    ),
    (
        "venum 1\nprime 2\nprime 2\n",
        "line 3: this line is not expected here",
    ),
    (
        "venum 1\nprime 2\nvenum 1\n",
        "line 3: this line is not expected here",
    ),
    (
        "venum 1\nprime 2\nrelation 0 = 0\n",
        "line 3: this line is not expected here",
    ),
    (
        "venum 1\nprime 2\nend\n",
        "line 3: this line is not expected here",
    ),
    (
        "venum 1\nprime 2\nbalance\n",
        "line 3: this line is not expected here",
    ),
    (
        "venum 1\nprime 2\nmodule 1\nmodule 1\nend\n",
        "line 4: this line is not expected here",
    ),
    (
        "venum 1\nprime 2\nmodule 1\nletter x\nend\n",
        "line 4: this line is not expected here",
    ),
    (
        "venum 1\nprime 2\nmodule 1\nbalance\nend\n",
        "line 4: this line is not expected here",
    ),
    (
        "venum 2\nprime 2\nmodule 1\nrelation 0 = 0\nbalance\nend\n",
        "line 5: this line is not expected here",
    ),
    (
        "venum 2\nprime 2\nmodule 1\nbalance\nbalance\nend\n",
        "line 5: this line is not expected here",
    ),
    (
        "venum 2\nprime 2\nmodule 1\nrelation 0 = 0\nmodule 2\nend\n",
        "line 5: this line is not expected here",
    ),
    (
        "venum 2\nprime 2\nmodule 1\nsub 0 = 0\ninvolution x\nend\n",
        "line 5: this line is not expected here",
    ),
    (
        "venum 1\nprime 2\nmodule 1\nprime 3\nend\n",
        "line 4: this line is not expected here",
    ),
    (
        "venum 1\nprime 2\nmodule 1\nrelation 0 = 0\nprime 3\nend\n",
        "line 5: this line is not expected here",
    ),
];

/// Lines of no form, and unknown names.
const FORMS: Refusals = &[
    ("venum\n", "line 1: this line is not expected here"),
    ("venum one\n", "line 1: this line is not expected here"),
    ("venum 1 1\n", "line 1: this line is not expected here"),
    ("venum 1\nprime\n", "line 2: this line is not expected here"),
    (
        "venum 1\nprime 2 3\n",
        "line 2: this line is not expected here",
    ),
    ("end\n", "line 1: this line is not expected here"),
    ("1 venum\n", "line 1: this line is not expected here"),
    ("(\n", "line 1: this line is not expected here"),
    ("Venum 1\n", "line 1: this line is not expected here"),
    ("venum1\n", "line 1: this line is not expected here"),
    (
        "venum 1\nprime 2\nletter\nmodule 1\nend\n",
        "line 3: this line is not expected here",
    ),
    (
        "venum 1\nprime 2\nletter 1\nmodule 1\nend\n",
        "line 3: this line is not expected here",
    ),
    (
        "venum 1\nprime 2\nletter x y\nmodule 1\nend\n",
        "line 3: this line is not expected here",
    ),
    (
        "venum 1\nprime 2\nletter x inverse\nmodule 1\nend\n",
        "line 3: this line is not expected here",
    ),
    (
        "venum 1\nprime 2\nletter x inverse y z\nmodule 1\nend\n",
        "line 3: this line is not expected here",
    ),
    (
        "venum 2\nprime 2\nletter x weight\nmodule 1\nend\n",
        "line 3: this line is not expected here",
    ),
    (
        "venum 2\nprime 2\nletter x weight y\nmodule 1\nend\n",
        "line 3: this line is not expected here",
    ),
    (
        "venum 2\nprime 2\nletter x weight 2 2\nmodule 1\nend\n",
        "line 3: this line is not expected here",
    ),
    (
        "venum 2\nprime 2\nletter x inverse weight 3\nmodule 1\nend\n",
        "line 3: this line is not expected here",
    ),
    (
        "venum 1\nprime 2\ninvolution x inverse y\nmodule 1\nend\n",
        "line 3: this line is not expected here",
    ),
    (
        "venum 1\nprime 2\ninvolution\nmodule 1\nend\n",
        "line 3: this line is not expected here",
    ),
    (
        "venum 1\nprime 2\nmodule\nend\nend\n",
        "line 3: this line is not expected here",
    ),
    (
        "venum 1\nprime 2\nmodule x\nend\n",
        "line 3: this line is not expected here",
    ),
    (
        "venum 1\nprime 2\nmodule 1 2\nend\n",
        "line 3: this line is not expected here",
    ),
    (
        "venum 1\nprime 2\nmodule 1\nend end\nend\n",
        "line 4: this line is not expected here",
    ),
    (
        "venum 2\nprime 2\nmodule 1\nbalance 1\nend\n",
        "line 4: this line is not expected here",
    ),
    (
        "venum 1\nprime 2\nletter x\nmodule 1\nrelation\nend\n",
        "line 5: this line is not expected here",
    ),
    (
        "venum 1\nprime 2\nletter x\nmodule 1\nrelation x\nend\n",
        "line 5: this line is not expected here",
    ),
    (
        "venum 1\nprime 2\nletter x\nmodule 1\nrelation x =\nend\n",
        "line 5: this line is not expected here",
    ),
    (
        "venum 1\nprime 2\nletter x\nmodule 1\nrelation = x\nend\n",
        "line 5: this line is not expected here",
    ),
    (
        "venum 1\nprime 2\nletter x\nmodule 1\nrelation x = 1 = 1\nend\n",
        "line 5: this line is not expected here",
    ),
    (
        "venum 1\nprime 2\nletter x\nmodule 1\nsub 2 = 0\nend\n",
        "line 5: this line is not expected here",
    ),
    (
        "venum 1\nprime 2\nletter x\nmodule 1\nsub x = 0\nend\n",
        "line 5: unknown name",
    ),
    (
        "venum 1\nprime 2\nletter x\nmodule 1\nsub e1*e1 = 0\nend\n",
        "line 5: unknown name",
    ),
    (
        "venum 1\nprime 2\nletter x\nmodule 1\nsub e1*2 + 1 = 0\nend\n",
        "line 5: this line is not expected here",
    ),
    (
        "venum 1\nprime 2\nletter x\nmodule 1\nsub 0*e1*x = 0 0\nend\n",
        "line 5: this line is not expected here",
    ),
    (
        "venum 1\nprime 2\nletter x\nmodule 1\nrelation e1 = 0\nend\n",
        "line 5: unknown name",
    ),
    (
        "venum 1\nprime 9\nletter $\n",
        "line 2: not a prime below 256",
    ),
    (
        "\n\n# c\nvenum 1\r\n\r\nprime 9\n",
        "line 6: not a prime below 256",
    ),
];

/// Bytes that are no text, the status, and what is shown and told of them.
const BYTES: &[(&[u8], u8, &str, &str)] = &[
    (
        b"#\x00\xff$\nvenum 1# \x80\nprime 2 #\n  # x\n\nletter x\nmodule 1#\nrelation x = 1 # = 2\nend # end\n# \xc3(\n",
        0,
        "venum 1\nprime 2\nletter x\nmodule 1\nrelation x + 1 = 0\nend\n",
        "",
    ),
    (
        b"venum 1\nprime 2\xff\n",
        3,
        "",
        "line 2: byte 7 begins no token",
    ),
    (b"venum 1\n\x00\n", 3, "", "line 2: byte 0 begins no token"),
];

/// Command lines, each with a text and what follows it, and how the program ends.
const RUNS: &[(&str, &str, &str, u8, &str, &str)] = &[
    // Limits and summaries.
    (
        "venum alone --limit 2",
        TWO_CYCLE,
        "",
        1,
        "venum-over 1\nlevel 2\nsize 3\nlimit 2\nend\n",
        "",
    ),
    (
        "venum alone --limit=2",
        TWO_CYCLE,
        "",
        1,
        "venum-over 1\nlevel 2\nsize 3\nlimit 2\nend\n",
        "",
    ),
    (
        "venum alone --limit 3",
        TWO_CYCLE,
        "",
        0,
        TWO_CYCLE_ANSWER,
        "",
    ),
    (
        "venum alone --limit 7",
        TRIANGLE,
        "",
        1,
        "venum-over 1\nlevel 6\nsize 8\nlimit 7\nend\n",
        "",
    ),
    (
        "venum alone --limit 8",
        TRIANGLE,
        "",
        0,
        TRIANGLE_ANSWER,
        "",
    ),
    (
        "venum alone --limit 10",
        "venum 1\nprime 2\nletter x\nmodule 1\nend\n",
        "",
        1,
        "venum-over 1\nlevel 10\nsize 11\nlimit 10\nend\n",
        "",
    ),
    (
        "venum alone --limit 10",
        "venum 1\nprime 2\nletter x\nmodule 1\nrelation 2*x = 0\nend\n",
        "",
        1,
        "venum-over 1\nlevel 10\nsize 11\nlimit 10\nend\n",
        "",
    ),
    (
        "venum alone --limit 1",
        "venum 1\nprime 2\nletter x\nmodule 2\nend\n",
        "",
        1,
        "venum-over 1\nlevel 0\nsize 2\nlimit 1\nend\n",
        "",
    ),
    (
        "venum alone --summary --limit 8",
        TRIANGLE,
        "",
        0,
        "venum-summary 1\ndimension 3\nletter a nonzero 3 trace 1\nletter b nonzero 3 trace 1\nend\n",
        "",
    ),
    // Claims.
    (
        "venum check",
        TWO_CYCLE,
        "venum-answer 1\nprime 2\nletters x\nmodule 1\nclosed 3\ndimension 2\nbasis e1\nbasis e1*x\nimage 1 0\nletter x\nrow 0 1\nrow 1 1\nend\n",
        7,
        "no relator 1 row 1\n",
        "",
    ),
    (
        "venum check",
        TWO_CYCLE,
        "venum-answer 1\nprime 3\nletters x\nmodule 1\nclosed 3\ndimension 2\nbasis e1\nbasis e1*x\nimage 1 0\nletter x\nrow 0 1\nrow 1 0\nend\n",
        7,
        "no shape\n",
        "",
    ),
    // The zero module is a quotient of each.
    (
        "venum check",
        TWO_CYCLE,
        "venum-answer 1\nprime 2\nletters x\nmodule 1\nclosed 1\ndimension 0\nimage\nletter x\nend\n",
        0,
        "yes\n",
        "",
    ),
    (
        "venum check",
        TRIANGLE,
        "venum-answer 1\nprime 3\nletters a b\nmodule 1\nclosed 8\ndimension 3\nbasis e1\nbasis e1*b\nbasis e1*b*a\nimage 0 1 0\nletter a\nrow 1 0 0\nrow 0 0 1\nrow 0 1 0\nletter b\nrow 0 1 0\nrow 1 0 0\nrow 0 0 1\nend\n",
        7,
        "no sub 1\n",
        "",
    ),
    (
        "venum check",
        TRIANGLE,
        "venum-answer 1\nprime 3\nletters a b\nmodule 1\nclosed 8\ndimension 3\nbasis e1\nbasis e1*b\nbasis e1*b*a\nimage 1 0 0\nletter a\nrow 1 0 0\nrow 0 0 2\nrow 0 2 0\nletter b\nrow 0 1 0\nrow 1 0 0\nrow 0 0 1\nend\n",
        7,
        "no basis 3\n",
        "",
    ),
    (
        "venum check",
        TWO_CYCLE,
        "prime 2\nletters x\nmodule 1\nclosed 3\ndimension 2\nbasis e1\nbasis e1*x\nimage 1 0\nletter x\nrow 0 1\nrow 1 0\nend\n",
        3,
        "",
        "answer line 1: not an answer",
    ),
    (
        "venum check",
        TWO_CYCLE,
        "venum-answer 1\nprime 2\nletters x\nmodule 1\nclosed 3\ndimension 2\nbasis e1\nbasis e1*x\nimage 1 0\nletter x\nrow 0 1\nrow 1 0\nend\nend\n",
        3,
        "",
        "answer line 14: not an answer",
    ),
    (
        "venum check",
        TWO_CYCLE,
        "",
        3,
        "",
        "answer line 1: not an answer",
    ),
    // The presentation is judged first.
    (
        "venum check",
        "venum 1\nprime 9\n",
        "",
        3,
        "",
        "line 2: not a prime below 256",
    ),
    // The last line feed may be missing.
    (
        "venum check",
        TWO_CYCLE,
        "venum-answer 1\nprime 2\nletters x\nmodule 1\nclosed 3\ndimension 2\nbasis e1\nbasis e1*x\nimage 1 0\nletter x\nrow 0 1\nrow 1 0\nend",
        0,
        "yes\n",
        "",
    ),
    (
        "venum check",
        TWO_CYCLE,
        "venum-answer 1\n",
        3,
        "",
        "answer line 2: not an answer",
    ),
    // Presentations that are made.
    (
        "venum make --prime 3 --points 3 --node 2",
        "",
        "",
        0,
        "venum 1\nprime 3\ninvolution s1\ninvolution s2\nmodule 1\nrelation s1*s2*s1*s2*s1*s2 + 2 = 0\nsub e1*s1 + 2*e1 = 0\nend\n",
        "",
    ),
    (
        "venum make --prime 2 --points 4 --node 1",
        "",
        "",
        0,
        "venum 1\nprime 2\ninvolution s1\ninvolution s2\ninvolution s3\nmodule 1\nrelation s1*s2*s1*s2*s1*s2 + 1 = 0\nrelation s1*s3*s1*s3 + 1 = 0\nrelation s2*s3*s2*s3*s2*s3 + 1 = 0\nsub e1*s2 + e1 = 0\nsub e1*s3 + e1 = 0\nend\n",
        "",
    ),
    (
        "venum make --prime 3 --points 1 --node 1",
        "",
        "",
        3,
        "",
        "no such presentation",
    ),
    (
        "venum make --prime 3 --points 26 --node 1",
        "",
        "",
        3,
        "",
        "no such presentation",
    ),
    (
        "venum make --prime 9 --points 5 --node 2",
        "",
        "",
        3,
        "",
        "no such presentation",
    ),
];

/// The reflections of the triangle.
const TRIANGLE: &str =
    "venum 1\nprime 3\ninvolution a\ninvolution b\nmodule 1\nrelation (a*b)^3 = 1\nsub e1*a = e1\nend\n";

const TRIANGLE_ANSWER: &str =
    "venum-answer 1\nprime 3\nletters a b\nmodule 1\nclosed 8\ndimension 3\nbasis e1\nbasis e1*b\nbasis e1*b*a\nimage 1 0 0\nletter a\nrow 1 0 0\nrow 0 0 1\nrow 0 1 0\nletter b\nrow 0 1 0\nrow 1 0 0\nrow 0 0 1\nend\n";

/// Command lines without a meaning.
const MEANINGLESS: &[&str] = &[
    "",
    "venum",
    "venum fly",
    "venum Alone",
    "venum alone --limit 0",
    "venum alone --limit 1000001",
    "venum alone --help",
    "venum alone -- extra",
    "venum shared --workers 65",
    "venum show extra",
    "venum show --limit 7",
    "venum check extra",
    "venum make --points 3 --node 2",
];

/// The parts of a text, of which the middle one stands many times, with what is shown and told of it.
const REPEATED: &[(&str, &str, usize, &str, &str, &str)] = &[
    (
        "venum 1\nprime 2\nletter x\nmodule 1\n",
        "relation x = x\n",
        4096,
        "end\n",
        "venum 1\nprime 2\nletter x\nmodule 1\nend\n",
        "",
    ),
    (
        "venum 1\nprime 2\nletter x\nmodule 1\n",
        "relation x = x\n",
        4096,
        "relation x = x\n",
        "",
        "line 4101: more than 4096 relations",
    ),
    (
        "venum 1\nprime 2\nletter x\nmodule 1\n",
        "relation x = x\n",
        4096,
        "relation nope^1001 = 0\n",
        "",
        "line 4101: more than 4096 relations",
    ),
    (
        "venum 1\nprime 2\nletter x\nmodule 1\n",
        "relation x = x\n",
        4096,
        "sub nope = 0\n",
        "",
        "line 4101: more than 4096 relations",
    ),
    (
        "venum 1\nprime 2\nletter x\nmodule 1\n",
        "relation x = x\n",
        4096,
        "relation x\n",
        "",
        "line 4101: this line is not expected here",
    ),
    (
        "venum 1\nprime 2\nletter x\nmodule 1\n",
        "relation x = x\n",
        4096,
        "relation $\n",
        "",
        "line 4101: byte 9 begins no token",
    ),
    // Behind two relators of 4,100,096 cells: further ones of 188,416, of none and of 2 cells.
    (
        "venum 1\nprime 2\nletter a\nletter b\nmodule 1\n",
        "relation (a + b)^12*a^988 = 0\n",
        2,
        "relation (a + b)^12*a^33 = 0\nrelation a = a\nrelation a = 0\nend\n",
        "",
        "line 10: 8388610 cells, more than 8388608",
    ),
    (
        "venum 1\nprime 2\nletter x\nmodule 1\nrelation ",
        "(",
        65,
        "x",
        "",
        "line 5: more than 64 open parentheses",
    ),
    (
        "venum 1\nprime 2\n",
        LETTERS,
        1,
        "letter F\nletter G\nend\n",
        "",
        "line 35: more than 32 letters",
    ),
    (
        "venum 1\nprime 2\n",
        LETTERS,
        1,
        "letter F\nletter F\nend\n",
        "",
        "line 35: name already taken",
    ),
    (
        "venum 2\nprime 2\n",
        LETTERS,
        1,
        "letter F\nletter G weight 17\nend\n",
        "",
        "line 35: more than 32 letters",
    ),
    (
        "venum 1\nprime 2\n",
        LETTERS,
        1,
        "letter F inverse G\nend\n",
        "",
        "line 34: more than 32 letters",
    ),
    (
        "venum 1\nprime 2\n",
        LETTERS,
        1,
        "letter F inverse d\nend\n",
        "",
        "line 34: name already taken",
    ),
    // A comment as long as an input may be, and one byte more.
    ("", SIGNS, 262_144, "", "", "line 2: end is missing"),
    (
        "",
        SIGNS,
        262_144,
        "#",
        "",
        "input longer than 16777216 bytes",
    ),
];

/// The signs of a comment, 64 of them.
const SIGNS: &str = "################################################################";

/// The lines of 31 letters.
const LETTERS: &str =
    "letter a\nletter b\nletter c\nletter d\nletter e\nletter f\nletter g\nletter h\nletter i\nletter j\nletter k\nletter l\nletter m\nletter n\nletter o\nletter p\nletter q\nletter r\nletter s\nletter t\nletter u\nletter v\nletter w\nletter x\nletter y\nletter z\nletter A\nletter B\nletter C\nletter D\nletter E\n";

/// A command line, a text, the calls of the source, the output and the error output that fail, counted from 1 (0 for none), and how the
/// program ends. What was put before the call that failed is the front of the text.
const STREAMS: &[(&str, &str, (u32, u32, u32), u8, &str, &str)] = &[
    ("venum show", TWO_CYCLE, (1, 0, 0), 4, "", "input failed"),
    ("venum show", TWO_CYCLE, (2, 0, 0), 4, "", "input failed"),
    ("venum show", TWO_CYCLE, (3, 0, 0), 0, TWO_CYCLE_SHOWN, ""),
    ("venum alone", "", (0, 0, 1), 3, "", ""),
    ("venum alone", TWO_CYCLE, (0, 1, 0), 5, "", "output failed"),
    (
        "venum alone",
        TWO_CYCLE,
        (0, 2, 0),
        5,
        "venum-answer 1\n",
        "output failed",
    ),
    (
        "venum alone",
        TWO_CYCLE,
        (0, 13, 0),
        5,
        "venum-answer 1\nprime 2\nletters x\nmodule 1\nclosed 3\ndimension 2\nbasis e1\nbasis e1*x\nimage 1 0\nletter x\nrow 0 1\nrow 1 0\n",
        "output failed",
    ),
    (
        "venum alone",
        TWO_CYCLE,
        (0, 14, 0),
        0,
        TWO_CYCLE_ANSWER,
        "",
    ),
    ("venum show", TWO_CYCLE, (0, 1, 0), 5, "", "output failed"),
    (
        "venum show",
        TWO_CYCLE,
        (0, 6, 0),
        5,
        "venum 1\nprime 2\nletter x\nmodule 1\nrelation x*x + 1 = 0\n",
        "output failed",
    ),
    ("venum show", TWO_CYCLE, (0, 7, 0), 0, TWO_CYCLE_SHOWN, ""),
    (
        "venum show",
        "venum 1\nprime 5\nletter x inverse X\nmodule 2\nend\n",
        (0, 4, 0),
        5,
        "venum 1\nprime 5\nletter x inverse X\n",
        "output failed",
    ),
    (
        "venum show",
        "venum 1\nprime 5\nletter x inverse X\nmodule 2\nend\n",
        (0, 5, 0),
        5,
        "venum 1\nprime 5\nletter x inverse X\nmodule 2\n",
        "output failed",
    ),
    (
        "venum show",
        "venum 1\nprime 5\nletter x inverse X\nmodule 2\nend\n",
        (0, 6, 0),
        0,
        "venum 1\nprime 5\nletter x inverse X\nmodule 2\nend\n",
        "",
    ),
    (
        "venum alone --limit 2",
        TWO_CYCLE,
        (0, 1, 0),
        5,
        "",
        "output failed",
    ),
    (
        "venum alone --limit 2",
        TWO_CYCLE,
        (0, 4, 0),
        5,
        "venum-over 1\nlevel 2\nsize 3\n",
        "output failed",
    ),
];

const USAGE: &str = "usage: venum alone, shared, show, check or make, with their options";

/// The input and the outputs of a run.
#[derive(Drop)]
struct Streams {
    source: MemSource,
    out: MemSink,
    err: MemSink,
}

/// Streams of which these calls fail, of the source, the output and the error output, counted from 1 (0 for none).
fn failing_streams(
    alloc: Global,
    input: Vec<u8>,
    failing: (u32, u32, u32),
) -> Result<Streams, Memory> {
    let source = vec![in alloc; failing.0]?;
    let out = vec![in alloc; failing.1]?;
    let err = vec![in alloc; failing.2]?;
    Ok(Streams {
        source: MemSource::new(input, source),
        out: MemSink::new(alloc, out),
        err: MemSink::new(alloc, err),
    })
}

/// What a run leaves: its status, what stands on the output, and what is told behind the program's name.
#[derive(Clone, Copy)]
struct Left<'a> {
    status: u8,
    out: &'a str,
    told: &'a str,
}

/// Whether a command line leaves this on the streams.
fn leaves(alloc: Global, line: &str, streams: &mut Streams, left: &Left) -> Result<bool, Memory> {
    let words = strings(alloc, line)?;
    let status = run_alone(
        alloc,
        &words,
        &mut streams.source,
        &mut streams.out,
        &mut streams.err,
    );
    Ok(
        status == left.status
            && streams.out.written().as_slice() == left.out.as_bytes()
            && is_told(streams.err.written(), left.told),
    )
}

fn is_told(err: &[u8], told: &str) -> bool {
    match err.strip_prefix(b"venum: ") {
        Some(message) => message.strip_suffix(b"\n") == Some(told.as_bytes()),
        None => err.is_empty() && told.is_empty(),
    }
}

/// Whether a command line leaves this where these bytes are its input, and these calls fail.
fn leaves_at(
    alloc: Global,
    line: &str,
    input: Vec<u8>,
    failing: (u32, u32, u32),
    left: &Left,
) -> Result<bool, Memory> {
    let mut streams = failing_streams(alloc, input, failing)?;
    leaves(alloc, line, &mut streams, left)
}

/// Whether a command line leaves this where its input is a text, and what follows it.
fn leaves_of(
    alloc: Global,
    line: &str,
    text: &str,
    behind: &str,
    left: &Left,
) -> Result<bool, Memory> {
    let input = repeated(alloc, text.as_bytes(), "", 0, behind)?;
    leaves_at(alloc, line, input, (0, 0, 0), left)
}

/// A text with a part that stands many times.
fn repeated(
    alloc: Global,
    front: &[u8],
    part: &str,
    count: usize,
    back: &str,
) -> Result<Vec<u8>, Memory> {
    let mut text = Vec::from_slice(alloc, front)?;
    append_each(&mut text, part.as_bytes(), count)?;
    text.extend_from_slice(back.as_bytes())?;
    Ok(text)
}

fn append_each(text: &mut Vec<u8>, part: &[u8], count: usize) -> Result<(), Memory> {
    for _ in 0..count {
        text.extend_from_slice(part)?;
    }
    Ok(())
}

#[test]
fn answers_are_found_and_confirmed(rt: HostRuntime) -> Result<(), Fail> {
    for (text, answer) in ANSWERED {
        assert!(rt; is_answered(rt.alloc(), text, answer)?, "{text}");
    }
    Ok(())
}

fn is_answered(alloc: Global, text: &str, answer: &str) -> Result<bool, Memory> {
    let found = Left {
        status: 0,
        out: answer,
        told: "",
    };
    let confirmed = Left {
        status: 0,
        out: "yes\n",
        told: "",
    };
    Ok(
        leaves_of(alloc, "venum alone", text, "", &found)?
            && leaves_of(alloc, "venum shared", text, "", &found)?
            && leaves_of(alloc, "venum check", text, answer, &confirmed)?,
    )
}

#[test]
fn canonical_texts_are_shown(rt: HostRuntime) -> Result<(), Fail> {
    for (text, shown) in SHOWN {
        assert!(rt; is_shown(rt.alloc(), text, shown)?, "{text}");
    }
    Ok(())
}

/// Whether a text is shown as the other, which is shown as it stands.
fn is_shown(alloc: Global, text: &str, shown: &str) -> Result<bool, Memory> {
    let left = Left {
        status: 0,
        out: shown,
        told: "",
    };
    Ok(
        leaves_of(alloc, "venum show", text, "", &left)?
            && leaves_of(alloc, "venum show", shown, "", &left)?,
    )
}

#[test]
fn texts_are_refused_where_they_fail(rt: HostRuntime) -> Result<(), Fail> {
    for refusals in [FAULTS, ORDER, TOKENS, PLACES, FORMS] {
        for (text, told) in refusals {
            assert!(rt; is_refused(rt.alloc(), text, told)?, "{text}");
        }
    }
    Ok(())
}

fn is_refused(alloc: Global, text: &str, told: &str) -> Result<bool, Memory> {
    let left = Left {
        status: 3,
        out: "",
        told,
    };
    Ok(
        leaves_of(alloc, "venum alone", text, "", &left)?
            && leaves_of(alloc, "venum show", text, "", &left)?,
    )
}

#[test]
fn bytes_are_judged(rt: HostRuntime) -> Result<(), Fail> {
    for (bytes, status, out, told) in BYTES {
        let input = Vec::from_slice(rt.alloc(), bytes)?;
        let left = Left {
            status: *status,
            out,
            told,
        };
        assert!(rt;
            leaves_at(rt.alloc(), "venum show", input, (0, 0, 0), &left)?,
            "{bytes:?}"
        );
    }
    Ok(())
}

#[test]
fn runs_end_as_they_say(rt: HostRuntime) -> Result<(), Fail> {
    for (line, text, behind, status, out, told) in RUNS {
        let left = Left {
            status: *status,
            out,
            told,
        };
        assert!(rt;
            leaves_of(rt.alloc(), line, text, behind, &left)?,
            "{line} {text}{behind}"
        );
    }
    Ok(())
}

#[test]
fn other_words_are_told_the_usage(rt: HostRuntime) -> Result<(), Fail> {
    let left = Left {
        status: 2,
        out: "",
        told: USAGE,
    };
    for line in MEANINGLESS {
        assert!(rt;
            leaves_of(rt.alloc(), line, TWO_CYCLE, "", &left)?,
            "{line}"
        );
    }
    Ok(())
}

#[test]
fn long_texts_are_judged(rt: HostRuntime) -> Result<(), Fail> {
    for (front, part, count, back, out, told) in REPEATED {
        let input = repeated(rt.alloc(), front.as_bytes(), part, *count, back)?;
        let left = Left {
            status: if told.is_empty() { 0 } else { 3 },
            out,
            told,
        };
        assert!(rt;
            leaves_at(rt.alloc(), "venum show", input, (0, 0, 0), &left)?,
            "{back}{told}"
        );
    }
    Ok(())
}

#[test]
fn streams_that_fail_are_told(rt: HostRuntime) -> Result<(), Fail> {
    for (line, text, failing, status, out, told) in STREAMS {
        let input = Vec::from_slice(rt.alloc(), text.as_bytes())?;
        let left = Left {
            status: *status,
            out,
            told,
        };
        assert!(rt;
            leaves_at(rt.alloc(), line, input, *failing, &left)?,
            "{line} {failing:?}"
        );
    }
    Ok(())
}
