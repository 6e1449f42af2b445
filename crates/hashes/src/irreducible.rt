// The exact test of a key polynomial, and the fields that irreducible polynomials give.
ghost use Rattle.std.specs.Prelude.{◌≡◌, ◌+◌, ◌^◌, ◌==◌, ◌||◌, Decides};
ghost use Rattle.hashes.specs.Evaluation.{modulus};
ghost use Rattle.hashes.specs.Field.{ResidueFields};
ghost use Rattle.hashes.specs.Frobenius.{frobenius};
ghost use Rattle.hashes.specs.Irreducible.{Irreducible, irreducible_by_trial};
ghost use Rattle.hashes.specs.Polynomial.{remainder};
ghost use Rattle.hashes.specs.Rabin.{BackAtLast};

use crate::fourth_powers::{fourth_powers, repeated_fourth_power};

// Whether x^64 + p is irreducible. Half of all words have the factor x, and half of the others x + 1, so these are looked at first.
#[tactic(auto, using(crate::proofs::KeyTest::exact_test))]
pub fn is_irreducible(p: u64) -> bool
    ensures value { result ≡ irreducible_by_trial (2 ^ 64 + p) }
    ensures exact { Decides result (Irreducible (2 ^ 64 + p)) }
{
    !has_linear_factor(p) && back_at_last(p)
}

// Whether x or x + 1 divides x^64 + p: whether its value at 0 or at 1 is zero.
#[tactic(auto, using(crate::proofs::Linear::last_digit_zero, crate::proofs::Linear::last_digit_one))]
fn has_linear_factor(p: u64) -> bool
    ensures { result ≡ (remainder (2 ^ 64 + p) 2 == 0 || remainder (2 ^ 64 + p) 3 == 0) }
{
    p % 2 == 0 || p.count_ones() % 2 == 1
}

// Whether x, squared again and again modulo x^64 + p, is back after 64 squarings, and was not after 32. The word 2 is x.
fn back_at_last(p: u64) -> bool
    ensures { Decides result (BackAtLast (2 ^ 64 + p) 32) }
{
    let (half, whole) = powers_of_x(p);
    half != 2 && whole == 2
}

// What x is after 32 and after 64 squarings, modulo x^64 + p. Six squarings give x^64, which is p.
#[tactic(auto, using(crate::proofs::KeyTest::after_half, crate::proofs::KeyTest::after_whole))]
fn powers_of_x(p: u64) -> (u64, u64)
    ensures half { result.0 ≡ frobenius (2 ^ 64 + p) 32 2 }
    ensures whole { result.1 ≡ frobenius (2 ^ 64 + p) 64 2 }
{
    let rows = fourth_powers(p);
    let half = repeated_fourth_power(&rows, p, 13);
    (half, repeated_fourth_power(&rows, half, 16))
}

// The residues modulo an irreducible polynomial are a field, and the evaluation hash's modulus x^64 + x^4 + x^3 + x + 1 is irreducible.
#[tactic(auto, using(crate::proofs::FieldLaws::residue_fields, crate::specs::Modulus::modulus_irreducible))]
pub fn residue_fields()
    ensures fields { ResidueFields }
    ensures modulus { Irreducible modulus }
{}
