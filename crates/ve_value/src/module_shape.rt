//! Which tokens are expressions of the module.

ghost use Rattle.std.specs.Prelude.{◌≡◌, ◌+◌, ◌<◌, ◌≤◌, ◌^◌, IfSome, Some, is_some, nat_le};
ghost use Rattle.std.specs.List.{list_all};
ghost use Rattle.ve_formats.specs.ModuleReading.{ModuleReader, module_expression_read, module_parsed};
ghost use Rattle.ve_lex.specs.Lexed.{token_of};
ghost use Rattle.ve_value.specs.ModuleShapes.{StepsTo, depth_of, ends_factor, module_shape_of};
ghost use Rattle.ve_value.specs.Shapes.{tokens_in};

use crate::shape::Shape;
use crate::sign::{Sign, sign_of};
use ve_lex::{Placed, Token};

/// The front of an expression of the module.
#[derive(Clone, Copy)]
enum ModuleShape {
    /// A term is wanted, before which a sign may stand or not.
    Wanted { signed: bool },
    /// A number, which is a term by itself where it is 0.
    Number { is_zero: bool },
    /// A number and the sign of a product.
    Scaling,
    /// A generator with its factors.
    Standing,
    /// The same, and the front of one more factor.
    Multiplying(Shape),
}

impl ModuleShape {
    // One token further. `None` where no expression of the module goes on like this.
    fn read(self, token: &Token) -> Option<ModuleShape>
        requires { depth_of self + 1 < 2 ^ 64 }
        ensures next { StepsTo self (token_of token.now) result }
        ensures depth { IfSome result (λ next. depth_of next ≤ depth_of self + 1) }
    {
        match self {
            ModuleShape::Wanted { signed } => begin(token, signed),
            ModuleShape::Number { is_zero } => behind_number(token, is_zero),
            ModuleShape::Scaling => scale(token),
            ModuleShape::Standing => behind_term(token),
            ModuleShape::Multiplying(shape) => behind_factor(token, shape),
        }
    }

    // Whether a whole expression stands here.
    fn is_whole(self) -> bool
        ensures { (r : ModuleReader) → module_shape_of r ≡ Some self → result ≡ is_some (module_expression_read r) }
    {
        match self {
            ModuleShape::Wanted { .. } => false,
            ModuleShape::Number { is_zero } => is_zero,
            ModuleShape::Scaling => false,
            ModuleShape::Standing => true,
            ModuleShape::Multiplying(shape) => shape.is_whole(),
        }
    }
}

// A token where a term is wanted.
fn begin(token: &Token, signed: bool) -> Option<ModuleShape>
    ensures next { StepsTo (ModuleShape.Wanted signed) (token_of token.now) result }
    ensures depth { IfSome result (λ next. depth_of next ≡ 0) }
{
    let byte = match token {
        Token::Name(_) => return Some(ModuleShape::Standing),
        Token::Number { text, .. } => {
            let is_zero = is_zero(text);
            return Some(ModuleShape::Number { is_zero });
        }
        Token::Symbol(byte) => *byte,
    };
    match sign_of(byte) {
        Sign::Plus | Sign::Minus => {
            if !signed {
                return None;
            }
            Some(ModuleShape::Wanted { signed: false })
        }
        Sign::Times | Sign::Power | Sign::Open | Sign::Close | Sign::Other => None,
    }
}

// A token behind a number.
fn behind_number(token: &Token, is_zero: bool) -> Option<ModuleShape>
    ensures next { StepsTo (ModuleShape.Number is_zero) (token_of token.now) result }
    ensures depth { IfSome result (λ next. depth_of next ≡ 0) }
{
    let byte = match token {
        Token::Name(_) => return None,
        Token::Number { .. } => return None,
        Token::Symbol(byte) => *byte,
    };
    match sign_of(byte) {
        Sign::Times => Some(ModuleShape::Scaling),
        Sign::Plus | Sign::Minus => {
            if !is_zero {
                return None;
            }
            Some(ModuleShape::Wanted { signed: false })
        }
        Sign::Power | Sign::Open | Sign::Close | Sign::Other => None,
    }
}

// A token behind a number and the sign of a product.
fn scale(token: &Token) -> Option<ModuleShape>
    ensures next { StepsTo ModuleShape.Scaling (token_of token.now) result }
    ensures depth { IfSome result (λ next. depth_of next ≡ 0) }
{
    match token {
        Token::Name(_) => Some(ModuleShape::Standing),
        Token::Number { .. } => None,
        Token::Symbol(_) => None,
    }
}

// A token behind a generator and its factors.
fn behind_term(token: &Token) -> Option<ModuleShape>
    ensures next { StepsTo ModuleShape.Standing (token_of token.now) result }
    ensures depth { IfSome result (λ next. depth_of next ≡ 0) }
{
    let byte = match token {
        Token::Name(_) => return None,
        Token::Number { .. } => return None,
        Token::Symbol(byte) => *byte,
    };
    match sign_of(byte) {
        Sign::Times => Some(ModuleShape::Multiplying(Shape::factor())),
        Sign::Plus | Sign::Minus => Some(ModuleShape::Wanted { signed: false }),
        Sign::Power | Sign::Open | Sign::Close | Sign::Other => None,
    }
}

// A token within a factor, or behind it.
fn behind_factor(token: &Token, shape: Shape) -> Option<ModuleShape>
    requires { shape.depth + 1 < 2 ^ 64 }
    ensures next { StepsTo (ModuleShape.Multiplying shape) (token_of token.now) result }
    ensures depth { IfSome result (λ next. depth_of next ≤ shape.depth + 1) }
{
    if shape.is_whole() && is_joining(token) {
        return behind_term(token);
    }
    let next = shape.read(token)?;
    Some(ModuleShape::Multiplying(next))
}

/// Whether the token is the sign of a product, a sum or a difference, which ends a factor.
pub(crate) fn is_joining(token: &Token) -> bool
    ensures { result ≡ ends_factor (token_of token.now) }
{
    match token {
        Token::Name(_) => false,
        Token::Number { .. } => false,
        Token::Symbol(byte) => match sign_of(*byte) {
            Sign::Times | Sign::Plus | Sign::Minus => true,
            Sign::Power | Sign::Open | Sign::Close | Sign::Other => false,
        },
    }
}

// Whether digits stand for 0, as they do where none counts anything.
fn is_zero(digits: &[u8]) -> bool
    ensures { result ≡ list_all (λ d. nat_le d 48) digits.now }
{
    digits.iter().all(|digit| *digit <= b'0')
}

/// Whether the tokens are an expression of the module.
pub fn is_module_expression(tokens: &[Placed]) -> bool
    ensures { result ≡ is_some (module_parsed (tokens_in tokens.now)) }
{
    let mut shape = ModuleShape::Wanted { signed: true };
    for placed in tokens {
        let Some(next) = shape.read(&placed.token) else {
            return false;
        };
        shape = next;
    }
    shape.is_whole()
}
