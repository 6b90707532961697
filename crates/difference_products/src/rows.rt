//! The products of the rows of a working table.

ghost use Rattle.std.specs.Prelude.{◌≡◌, ◌≤◌, ◌<◌, ◌*◌, ◌^◌, pos, ◌-ℤ◌, length, IfOk, IfErr, SomeIff};
ghost use Rattle.whole_numbers.specs.Intervals.{size, interval_mul};
ghost use Rattle.sym_blocks.specs.Tables.{entry_at};
ghost use Rattle.equil.specs.Rows.{AllInRange};
ghost use Rattle.equil.specs.Tables.{exponent_of};
ghost use Rattle.stated_order.specs.First.{IsFirstFailure};
ghost use Rattle.difference_products.specs.Answers.{IfRange};
ghost use Rattle.difference_products.specs.Parts.{OnDiagonal, interval_of, AreSmall, sum_of_row, product_of_row, RowFits, AreProductsTo};

use crate::ProductError;
use equil::Working;
use interval_word::Iv;
use std::alloc::Global;

/// The greatest size of a product.
const LIMIT: u128 = 10_000_000_000_000_000_000_000_000_000_000_000;

/// The products of a number of the first and one of the second.
#[tactic(auto, using(whole_numbers::proofs::Sizes::product_size))]
fn interval_product(a: &Iv, b: &Iv) -> Iv
    requires { size a.now * size b.now ≤ 2 ^ 126 }
    ensures value { result ≡ interval_mul a.now b.now }
    ensures bound { size result ≤ size a.now * size b.now }
{
    a.mul(b)
}

/// The product of an interval of the table and a scaled difference.
fn term<const N: usize>(w: &Working<N>, zs: &[Iv], i: usize, j: usize) -> Iv
    requires small { AreSmall w.now.a.size zs.now }
    requires row { i < w.now.a.size }
    requires column { j < w.now.a.size }
    ensures value { result ≡ interval_mul (entry_at w.now.a i j) (interval_of zs.now j) }
    ensures bound { size result ≤ 2 ^ 61 * size (interval_of zs.now j) }
{
    interval_product(&w.a.get(i, j), &zs[j])
}

/// A row of the table times the scaled differences.
fn row_sum<const N: usize>(w: &Working<N>, zs: &[Iv], i: usize) -> Iv
    requires small { AreSmall w.now.a.size zs.now }
    requires row { i < w.now.a.size }
    ensures { result ≡ sum_of_row w.now.a zs.now i w.now.a.size }
{
    let mut sum = Iv::point(0);
    for j in 0..zs.len() {
        sum = sum.add(&term(w, zs, i, j));
    }
    sum
}

/// The power of ten from the sum of a row to its product.
fn power(exponents: &[i32], i: usize) -> i32
    requires within { i < length exponents.now }
    requires range { AllInRange exponents.now }
    ensures { result ≡ exponent_of exponents.now i -ℤ pos 12 }
{
    exponents[i] - 12
}

/// The product of a row, and None exactly where it passes its bound.
fn row_product<const N: usize>(w: &Working<N>, zs: &[Iv], i: usize) -> Option<Iv>
    requires small { AreSmall w.now.a.size zs.now }
    requires row { i < w.now.a.size }
    ensures { SomeIff result (RowFits w.now.a zs.now w.now.e.items i) (product_of_row w.now.a zs.now w.now.e.items i) }
{
    row_sum(w, zs, i).scale10_within(power(&w.e, i), LIMIT)
}

/// The products of all rows. Range comes exactly where one passes its bound, with the first.
pub fn row_products<const N: usize>(
    alloc: Global,
    w: &Working<N>,
    zs: &[Iv],
) -> Result<Vec<Iv>, ProductError>
    requires { AreSmall w.now.a.size zs.now }
    ensures products { IfOk result (λ products. AreProductsTo w.now.a.size w.now.a zs.now w.now.e.items products.items) }
    ensures wide { IfErr result (IfRange (OnDiagonal (IsFirstFailure w.now.a.size (RowFits w.now.a zs.now w.now.e.items)))) }
{
    let mut products = Vec::new(alloc);
    for row in 0..zs.len() {
        match row_product(w, zs, row) {
            Some(product) => {
                if products.push(product).is_err() {
                    return Err(ProductError::Memory);
                }
            }
            None => return Err(ProductError::Range { row, col: row }),
        }
    }
    Ok(products)
}
