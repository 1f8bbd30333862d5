ghost use Rattle.std.specs.Prelude.{◌≡◌, ◌+◌, ◌*◌, ◌-◌, ◌%◌, ◌^◌, ◌<◌, ◌↔◌, IsTrue, IsSome, IfSome};
ghost use Rattle.ve_theory.specs.Residues.{IsFieldPrime, Congruent};

use crate::primes::find_prime;
use std::marker::Model;

/// The field of `p` elements, for a prime `p` below 256. Its elements are the residues 0 to `p - 1`.
#[derive(Clone, Copy, Debug, PartialEq, Eq)]
pub struct Field {
    prime: u8,
}

impl Model for Field {
    ghost use Rattle.std.specs.Prelude.{ℕ};
    ghost use Rattle.ve_theory.specs.Residues.{IsFieldPrime};

    ghost Value = { ℕ };

    ghost view = { λ f. f.prime };

    ghost invariant = { λ f. IsFieldPrime f.prime };

    ghost inverse = { λ p. record { prime = p } };
}

impl Field {
    /// The field of `p` elements, where `p` is a prime below 256.
    pub fn new(p: u64) -> Option<Field>
        ensures prime { IsSome result ↔ IsFieldPrime p }
        ensures field { IfSome result (λ f. f ≡ p) }
    {
        let prime = find_prime(p)?;
        Some(Field { prime })
    }

    /// How many elements the field has.
    pub fn prime(&self) -> u8
        ensures prime { result ≡ self.now }
        ensures in_table { IsFieldPrime self.now }
        ensures above_one { 1 < self.now }
        ensures below_256 { self.now < 256 }
    {
        self.prime
    }

    /// The prime is in the table.
    pub fn has_prime(&self)
        ensures in_table { IsFieldPrime self.now }
        ensures above_one { 1 < self.now }
        ensures below_256 { self.now < 256 }
    {
        self.prime();
    }

    /// Whether `a` is an element of the field.
    pub fn is_residue(&self, a: u8) -> bool
        ensures { IsTrue result ↔ (a < self.now) }
    {
        a < self.prime
    }

    /// The sum of two residues.
    pub fn add(&self, a: u8, b: u8) -> u8
        requires first { a < self.now }
        requires second { b < self.now }
        ensures residue { result < self.now }
        ensures sum { result ≡ (a + b) % self.now }
    {
        // What `b` lacks to the prime tells whether the sum passes it, with no wider type.
        let room = self.prime - b;
        if a < room { a + b } else { a - room }
    }

    /// The product of two residues.
    pub fn mul(&self, a: u8, b: u8) -> u8
        requires first { a < self.now }
        requires second { b < self.now }
        ensures residue { result < self.now }
        ensures product { result ≡ (a * b) % self.now }
        ensures nonzero { 0 < a → 0 < b → 0 < result }
    {
        // Most coefficients are 1, and a division costs more than a comparison.
        if a == 1 {
            return b;
        }
        if b == 1 {
            return a;
        }
        let product = u16::from(a) * u16::from(b);
        (product % u16::from(self.prime)) as u8
    }

    /// The residue that makes zero with `a`.
    pub fn neg(&self, a: u8) -> u8
        requires { a < self.now }
        ensures residue { result < self.now }
        ensures negative { result ≡ (self.now - a) % self.now }
    {
        if a == 0 { 0 } else { self.prime - a }
    }

    /// The residue whose product with `a` is 1.
    pub fn inv(&self, a: u8) -> u8
        requires nonzero { 0 < a }
        requires residue { a < self.now }
        ensures residue { result < self.now }
        ensures inverse { Congruent self.now (a * result) 1 }
    {
        let exponent = self.prime() - 2;
        // 1 and -1 are their own inverses.
        if a == 1 || a == exponent + 1 {
            return a;
        }
        self.pow(a, exponent)
    }

    /// The residue of any number.
    pub fn reduce(&self, n: u128) -> u8
        ensures residue { result < self.now }
        ensures residue_of { result ≡ n % self.now }
    {
        (n % u128::from(self.prime())) as u8
    }

    fn pow(&self, a: u8, exponent: u8) -> u8
        requires { a < self.now }
        ensures residue { result < self.now }
        ensures power { result ≡ a ^ exponent % self.now }
    {
        let mut power = self.reduce(1);
        let mut base = a;
        let mut left = exponent;
        while left > 0 {
            if left % 2 == 1 {
                power = self.mul(power, base);
            }
            base = self.mul(base, base);
            left /= 2;
        }
        power
    }
}

#[cfg(test)]
mod tests {
    use super::*;

    #[test]
    fn fields_are_those_of_the_primes_below_256(rt: HostRuntime) {
        for (p, is_prime) in [
            (0, false),
            (1, false),
            (2, true),
            (9, false),
            (251, true),
            (253, false),
            (257, false),
            (u64::MAX, false),
        ] {
            assert_eq!(rt; Field::new(p).is_some(), is_prime, "at {p}");
        }
    }

    #[test]
    fn computes_modulo_five(rt: HostRuntime) {
        if let Some(field) = Field::new(5) {
            let results = [
                field.prime(),
                field.add(4, 3),
                field.mul(3, 4),
                field.neg(0),
                field.neg(2),
                field.inv(2),
                field.reduce(12),
                field.reduce(u128::MAX),
            ];
            assert_eq!(rt; results, [5, 2, 2, 0, 3, 3, 2, 0]);
            assert_eq!(rt; (field.is_residue(4), field.is_residue(5)), (true, false));
        } else {
            panic!(rt; "5 is a prime");
        }
    }
}
