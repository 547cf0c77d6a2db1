//! Powers of residues by the product that is fast for the base: those by the number of constants of the powers of the
//! letter.

ghost use Rattle.std.specs.Prelude.{◌≡◌, ◌-◌, ◌<◌, IfOk, length};
ghost use Rattle.ring_core.specs.Ring.{IsElem};
ghost use Rattle.ring_core.specs.Coeffs.{first_values};
ghost use Rattle.ring_core.specs.Powers.{power_of};
ghost use Rattle.residue_field.specs.Base.{ops_of, size_of};
ghost use Rattle.field_tower.specs.steps.Places.{IsModulus, stored_ops};
ghost use Rattle.field_tower.specs.steps.Lanes.{letter_row};
ghost use Rattle.field_tower.specs.steps.LetterPowers.{letter_image};

use super::base::BaseField;
use super::{places, products};
use residue_field::{Code, TopElem};
use ring_core::NoMemory;
use std::alloc::Global;

/// The residue `a` multiplied `k` times, one for `k = 0`: by squares, at most two products for each
/// binary digit of `k`.
fn power(base: &BaseField, modulus: &[Code], letters: &[TopElem], a: TopElem, k: u32) -> TopElem
    requires monic { IsModulus (ops_of base.now) modulus.now }
    requires letters { letters.now ≡ first_values (length modulus.now - 1) (letter_row (ops_of base.now) modulus.now) }
    requires elem { IsElem (stored_ops (ops_of base.now) modulus.now) a }
    ensures value { result ≡ power_of (stored_ops (ops_of base.now) modulus.now) a k }
    ensures elem { IsElem (stored_ops (ops_of base.now) modulus.now) result }
{
    if k == 0 {
        return places::one(base);
    }
    if k == 1 {
        return a;
    }
    let half = power(base, modulus, letters, a, k / 2);
    let square = products::mul(base, modulus, letters, half, half);
    if k % 2 == 0 {
        square
    } else {
        products::mul(base, modulus, letters, square, a)
    }
}

/// The power by the number of constants of the power `j` of the letter, from those before it: one product where `j` is
/// more than 1.
fn next_image(
    base: &BaseField,
    modulus: &[Code],
    letters: &[TopElem],
    images: &[TopElem],
    j: usize,
) -> TopElem
    requires monic { IsModulus (ops_of base.now) modulus.now }
    requires letters { letters.now ≡ first_values (length modulus.now - 1) (letter_row (ops_of base.now) modulus.now) }
    requires place { j < length modulus.now - 1 }
    requires before { images.now ≡ first_values j (letter_image (ops_of base.now) (size_of base.now) modulus.now) }
    ensures { result ≡ letter_image (ops_of base.now) (size_of base.now) modulus.now j }
{
    if j < 2 {
        let letter = places::unit(base, modulus.len() - 1, j);
        return power(base, modulus, letters, letter, base.q());
    }
    products::mul(base, modulus, letters, images[1], images[j - 1])
}

/// The powers by the number of constants of the powers of the letter below the degree, where `letters` holds the
/// residues of the powers from the degree on.
pub(crate) fn letter_images(
    alloc: Global,
    base: &BaseField,
    modulus: &[Code],
    letters: &[TopElem],
) -> Result<Vec<TopElem>, NoMemory>
    requires monic { IsModulus (ops_of base.now) modulus.now }
    requires letters { letters.now ≡ first_values (length modulus.now - 1) (letter_row (ops_of base.now) modulus.now) }
    ensures { IfOk result (λ v. v.items ≡ first_values (length modulus.now - 1) (letter_image (ops_of base.now) (size_of base.now) modulus.now)) }
{
    let mut images = Vec::new(alloc);
    for j in 0..modulus.len() - 1 {
        let image = next_image(base, modulus, letters, &images, j);
        images.push(image)?;
    }
    Ok(images)
}
