//! Integers of 8, 16 and 32 bits.

ghost use Rattle.std.specs.Prelude.{◌≡◌, ◌≢◌, ◌<◌, ◌≤◌, [], ◌∷◌, map, IfOk};
ghost use Rattle.type_trees.specs.Ty.{number, nonzero, range_check};
ghost use Rattle.libfunc_registry.specs.Arguments as arguments;
ghost use Rattle.libfunc_registry.specs.Arguments.{num_of};
ghost use Rattle.libfunc_registry.specs.Integers as registry;
ghost use Rattle.value_trees.specs.Meant.{meant};
ghost use Rattle.libfunc_meaning.specs.Answers.{of_two, with_number};
ghost use Rattle.libfunc_meaning.specs.Integers as integers;
ghost use Rattle.libfunc_meaning.specs.Integers.{integers_does, narrowed};
ghost use Rattle.libfunc_meaning.specs.Placed.{ArePlain, IsAnswer};

use crate::taking::{behind, front, number_at};
use felt64::Felt;
use libfunc_registry::Width;
use std::alloc::AllocError;
use type_trees::Num;
use value_trees::Value;

/// The integers of a width are those below this one.
fn limit(width: Width) -> u64
    ensures { result ≡ integers.limit width }
{
    match width {
        Width::W8 => 1 << 8,
        Width::W16 => 1 << 16,
        Width::W32 => 1 << 32,
    }
}

/// An integer of a width.
fn int(width: Width, n: u64) -> Value
    requires { n < integers.limit width }
    ensures { meant result ≡ integers.int width n }
{
    Value::from_number(width.num(), n)
}

/// The type of a product of two integers of this width; no wide product is of two `u32`.
fn double(width: Width) -> Num
    ensures { result ≡ registry.num_of_double width }
{
    match width {
        Width::W8 => Num::U16,
        Width::W16 | Width::W32 => Num::U32,
    }
}

/// The integer as a felt.
pub(crate) fn to_felt(values: Vec<Value>, width: Width) -> Result<(usize, Vec<Value>), AllocError>
    requires { ArePlain (registry.int width ∷ []) (map meant values.items) }
    ensures { IfOk result (IsAnswer (integers_does (registry.to_felt64 width) (map meant values.items))) }
{
    let n = u128::from(number_at(&values, 0));
    Ok((0, behind(values, 0, Value::Felt(Felt::reduce(n)))?))
}

/// The number as one of this width, where it fits.
pub(crate) fn narrow(
    values: Vec<Value>,
    from: Num,
    width: Width,
) -> Result<(usize, Vec<Value>), AllocError>
    requires { ArePlain (range_check ∷ number from ∷ []) (map meant values.items) }
    ensures { IfOk result (IsAnswer (of_two (map meant values.items) (λ rc v. with_number v (λ n. narrowed width rc n)))) }
{
    let n = number_at(&values, 1);
    if n < limit(width) {
        Ok((0, behind(values, 1, int(width, n))?))
    } else {
        Ok((1, front(values, 1)))
    }
}

/// The sum, or the sum less the width's limit.
pub(crate) fn overflowing_add(
    values: Vec<Value>,
    width: Width,
) -> Result<(usize, Vec<Value>), AllocError>
    requires { ArePlain (range_check ∷ registry.int width ∷ registry.int width ∷ []) (map meant values.items) }
    ensures { IfOk result (IsAnswer (integers_does (registry.overflowing_add width) (map meant values.items))) }
{
    let sum = number_at(&values, 1) + number_at(&values, 2);
    if sum < limit(width) {
        Ok((0, behind(values, 1, int(width, sum))?))
    } else {
        Ok((1, behind(values, 1, int(width, sum - limit(width)))?))
    }
}

/// The difference, or the difference and the width's limit.
pub(crate) fn overflowing_sub(
    values: Vec<Value>,
    width: Width,
) -> Result<(usize, Vec<Value>), AllocError>
    requires { ArePlain (range_check ∷ registry.int width ∷ registry.int width ∷ []) (map meant values.items) }
    ensures { IfOk result (IsAnswer (integers_does (registry.overflowing_sub width) (map meant values.items))) }
{
    let a = number_at(&values, 1);
    let b = number_at(&values, 2);
    if b <= a {
        Ok((0, behind(values, 1, int(width, a - b))?))
    } else {
        Ok((1, behind(values, 1, int(width, a + limit(width) - b))?))
    }
}

/// The product as one of twice the width.
pub(crate) fn wide_mul(values: Vec<Value>, width: Width) -> Result<(usize, Vec<Value>), AllocError>
    requires typed { ArePlain (registry.int width ∷ registry.int width ∷ []) (map meant values.items) }
    requires narrow { width ≢ Width.W32 }
    ensures { IfOk result (IsAnswer (integers_does (registry.wide_mul width) (map meant values.items))) }
{
    let product = number_at(&values, 0) * number_at(&values, 1);
    Ok((
        0,
        behind(values, 0, Value::from_number(double(width), product))?,
    ))
}

/// The high and the low half of the product.
pub(crate) fn split_mul(values: Vec<Value>) -> Result<(usize, Vec<Value>), AllocError>
    requires { ArePlain (range_check ∷ registry.int Width.W32 ∷ registry.int Width.W32 ∷ []) (map meant values.items) }
    ensures { IfOk result (IsAnswer (integers_does registry.split_mul (map meant values.items))) }
{
    let product = number_at(&values, 1) * number_at(&values, 2);
    let high = int(Width::W32, product / (1 << 32));
    let low = int(Width::W32, product % (1 << 32));
    let values = behind(values, 1, high)?;
    Ok((0, behind(values, 2, low)?))
}

/// The quotient and the remainder.
pub(crate) fn safe_divmod(
    values: Vec<Value>,
    width: Width,
) -> Result<(usize, Vec<Value>), AllocError>
    requires { ArePlain (range_check ∷ registry.int width ∷ nonzero (num_of width) ∷ []) (map meant values.items) }
    ensures { IfOk result (IsAnswer (integers_does (registry.safe_divmod width) (map meant values.items))) }
{
    let a = number_at(&values, 1);
    let b = number_at(&values, 2);
    let values = behind(values, 1, int(width, a / b))?;
    Ok((0, behind(values, 2, int(width, a % b))?))
}

/// Whether two integers are equal, by the branch.
pub(crate) fn equal(values: Vec<Value>, width: Width) -> (usize, Vec<Value>)
    requires { ArePlain (registry.int width ∷ registry.int width ∷ []) (map meant values.items) }
    ensures { IsAnswer (integers_does (registry.eq width) (map meant values.items)) result }
{
    let same = number_at(&values, 0) == number_at(&values, 1);
    (usize::from(same), front(values, 0))
}

/// The integer as one of a width that is no narrower.
pub(crate) fn upcast(
    values: Vec<Value>,
    from: Width,
    to: Width,
) -> Result<(usize, Vec<Value>), AllocError>
    requires typed { ArePlain (registry.int from ∷ []) (map meant values.items) }
    requires wide { arguments.bits from ≤ arguments.bits to }
    ensures { IfOk result (IsAnswer (integers_does (registry.upcast from to) (map meant values.items))) }
{
    let n = number_at(&values, 0);
    Ok((0, behind(values, 0, int(to, n))?))
}
