ghost use Rattle.std.specs.Prelude.{◌≡◌, ◌-◌, ◌+◌, ◌*◌, IfOk, length};
ghost use Rattle.ring_core.specs.Coeffs.{first_values};
ghost use Rattle.residue_field.specs.Base.{ops_of, size_of};
ghost use Rattle.residue_field.specs.Top.{IsTop};
ghost use Rattle.field_tower.specs.steps.Places.{IsModulus};
ghost use Rattle.field_tower.specs.steps.Images.{frob_image};
ghost use Rattle.field_tower.specs.steps.LetterPowers.{letter_image};

use super::base::BaseField;
use super::{places, products};
use residue_field::{Code, TopElem};
use ring_core::NoMemory;
use std::alloc::Global;

/// The image that comes after the first `m` images: a power of the letter, its power by `q`, which is in
/// `powers`, or the power by `q` of the image `n` places before, which is linear in its coefficients.
fn next_image(
    base: &BaseField,
    n: usize,
    modulus: &[Code],
    powers: &[TopElem],
    images: &[TopElem],
    m: usize,
) -> TopElem
    requires monic { IsModulus (ops_of base.now) modulus.now }
    requires degree { length modulus.now ≡ n + 1 }
    requires top { IsTop base.now n modulus.now }
    requires powers { powers.now ≡ first_values (length modulus.now - 1) (letter_image (ops_of base.now) (size_of base.now) modulus.now) }
    requires before { images.now ≡ first_values m (frob_image base.now n modulus.now) }
    ensures { result ≡ frob_image base.now n modulus.now m }
{
    if m < n {
        return places::unit(base, n, m);
    }
    if m < 2 * n {
        return powers[m - n];
    }
    products::combination(base, n, images, n, images[m - n])
}

/// The images of the powers of the letter below `n` under the powers of the Frobenius below `n`, where
/// the modulus has degree `n`: that of `z^j` under the power `i` at `i * n + j`. Those under the first power are
/// `powers`.
pub(crate) fn images(
    alloc: Global,
    base: &BaseField,
    n: usize,
    modulus: &[Code],
    powers: &[TopElem],
) -> Result<Vec<TopElem>, NoMemory>
    requires monic { IsModulus (ops_of base.now) modulus.now }
    requires degree { length modulus.now ≡ n + 1 }
    requires top { IsTop base.now n modulus.now }
    requires powers { powers.now ≡ first_values (length modulus.now - 1) (letter_image (ops_of base.now) (size_of base.now) modulus.now) }
    ensures { IfOk result (λ v. v.items ≡ first_values (n * n) (frob_image base.now n modulus.now)) }
{
    let mut images = Vec::new(alloc);
    for m in 0..n * n {
        let image = next_image(base, n, modulus, powers, &images, m);
        images.push(image)?;
    }
    Ok(images)
}
