//! Which tokens are expressions of the algebra. That depends only on how many parentheses are open, and on what stands before.

ghost use Rattle.std.specs.Prelude.{◌≡◌, ◌+◌, ◌<◌, ◌≤◌, ◌^◌, true, false, IfSome, Some, is_some};
ghost use Rattle.ve_formats.specs.Reading.{Reader, expression_read, parsed, read};
ghost use Rattle.ve_lex.specs.Lexed.{token_of};
ghost use Rattle.ve_value.specs.Shapes.{tokens_in};

use crate::sign::{Sign, sign_of};
use ve_lex::{Placed, Token};

/// What stands before a token, within the innermost parentheses.
#[derive(Clone, Copy)]
enum Place {
    /// A factor is wanted, before which a sign may stand or not.
    Wanted { signed: bool },
    /// A factor, which may be raised or not.
    Standing { raisable: bool },
    /// The sign of a power.
    Raising,
    /// The sign of a power, and a minus.
    Inverting,
}

/// The front of an expression.
#[derive(Clone, Copy)]
pub(crate) struct Shape {
    depth: u64,
    place: Place,
}

impl Shape {
    ghost use Rattle.ve_value.specs.Shapes.{shape_of};

    /// Before an expression.
    pub(crate) fn start() -> Shape
        ensures { result ≡ record { depth = 0; place = Place.Wanted true } }
    {
        Shape {
            depth: 0,
            place: Place::Wanted { signed: true },
        }
    }

    /// Before a factor.
    pub(crate) fn factor() -> Shape
        ensures { result ≡ record { depth = 0; place = Place.Wanted false } }
    {
        Shape {
            depth: 0,
            place: Place::Wanted { signed: false },
        }
    }

    /// One token further. `None` where no expression goes on like this.
    pub(crate) fn read(self, token: &Token) -> Option<Shape>
        requires { self.depth + 1 < 2 ^ 64 }
        ensures next { (r : Reader) → shape_of r ≡ Some self → shape_of (read r (token_of token.now)) ≡ result }
        ensures depth { IfSome result (λ next. next.depth ≤ self.depth + 1) }
    {
        match self.place {
            Place::Wanted { signed } => self.begin(token, signed),
            Place::Standing { raisable } => self.go_on(token, raisable),
            Place::Raising => self.raise(token),
            Place::Inverting => self.invert(token),
        }
    }

    /// Whether a whole expression stands here.
    pub(crate) fn is_whole(self) -> bool
        ensures { (r : Reader) → shape_of r ≡ Some self → result ≡ is_some (expression_read r) }
    {
        if self.depth > 0 {
            return false;
        }
        match self.place {
            Place::Standing { .. } => true,
            Place::Wanted { .. } | Place::Raising | Place::Inverting => false,
        }
    }

    // The same parentheses, and another place.
    fn at(self, place: Place) -> Shape
        ensures { result ≡ record { depth = self.depth; place = place } }
    {
        Shape {
            depth: self.depth,
            place,
        }
    }

    // A token where a factor is wanted.
    fn begin(self, token: &Token, signed: bool) -> Option<Shape>
        requires place { self.place ≡ Place.Wanted signed }
        requires room { self.depth + 1 < 2 ^ 64 }
        ensures next { (r : Reader) → shape_of r ≡ Some self → shape_of (read r (token_of token.now)) ≡ result }
        ensures depth { IfSome result (λ next. next.depth ≤ self.depth + 1) }
    {
        let byte = match token {
            Token::Name(_) => return Some(self.at(Place::Standing { raisable: true })),
            Token::Number { .. } => return Some(self.at(Place::Standing { raisable: true })),
            Token::Symbol(byte) => *byte,
        };
        match sign_of(byte) {
            Sign::Open => Some(Shape {
                depth: self.depth + 1,
                place: Place::Wanted { signed: true },
            }),
            Sign::Plus | Sign::Minus => {
                if !signed {
                    return None;
                }
                Some(self.at(Place::Wanted { signed: false }))
            }
            Sign::Times | Sign::Power | Sign::Close | Sign::Other => None,
        }
    }

    // A token behind a factor.
    fn go_on(self, token: &Token, raisable: bool) -> Option<Shape>
        requires place { self.place ≡ Place.Standing raisable }
        requires room { self.depth + 1 < 2 ^ 64 }
        ensures next { (r : Reader) → shape_of r ≡ Some self → shape_of (read r (token_of token.now)) ≡ result }
        ensures depth { IfSome result (λ next. next.depth ≤ self.depth + 1) }
    {
        let byte = match token {
            Token::Name(_) => return None,
            Token::Number { .. } => return None,
            Token::Symbol(byte) => *byte,
        };
        match sign_of(byte) {
            Sign::Power => {
                if !raisable {
                    return None;
                }
                Some(self.at(Place::Raising))
            }
            Sign::Times | Sign::Plus | Sign::Minus => {
                Some(self.at(Place::Wanted { signed: false }))
            }
            Sign::Close => {
                if self.depth == 0 {
                    return None;
                }
                Some(Shape {
                    depth: self.depth - 1,
                    place: Place::Standing { raisable: true },
                })
            }
            Sign::Open | Sign::Other => None,
        }
    }

    // A token behind the sign of a power.
    fn raise(self, token: &Token) -> Option<Shape>
        requires place { self.place ≡ Place.Raising }
        ensures next { (r : Reader) → shape_of r ≡ Some self → shape_of (read r (token_of token.now)) ≡ result }
        ensures depth { IfSome result (λ next. next.depth ≤ self.depth) }
    {
        match token {
            Token::Name(_) => None,
            Token::Number { .. } => Some(self.at(Place::Standing { raisable: false })),
            Token::Symbol(byte) => match sign_of(*byte) {
                Sign::Minus => Some(self.at(Place::Inverting)),
                Sign::Plus | Sign::Times | Sign::Power | Sign::Open | Sign::Close | Sign::Other => {
                    None
                }
            },
        }
    }

    // A token behind the sign of a power and a minus.
    fn invert(self, token: &Token) -> Option<Shape>
        requires place { self.place ≡ Place.Inverting }
        ensures next { (r : Reader) → shape_of r ≡ Some self → shape_of (read r (token_of token.now)) ≡ result }
        ensures depth { IfSome result (λ next. next.depth ≤ self.depth) }
    {
        match token {
            Token::Number { .. } => Some(self.at(Place::Standing { raisable: false })),
            Token::Name(_) => None,
            Token::Symbol(_) => None,
        }
    }
}

/// Whether the tokens are an expression of the algebra.
pub fn is_expression(tokens: &[Placed]) -> bool
    ensures { result ≡ is_some (parsed (tokens_in tokens.now)) }
{
    let mut shape = Shape::start();
    for placed in tokens {
        let Some(next) = shape.read(&placed.token) else {
            return false;
        };
        shape = next;
    }
    shape.is_whole()
}
