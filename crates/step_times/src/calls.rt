// The calls that are measured, with errors of one type. Each asks what its call needs, and answers what the next one needs.

ghost use Rattle.std.specs.Prelude.{◌≡◌, IfOk, length, vec_len};
ghost use Rattle.whole_numbers.specs.Lists.{at};
ghost use Rattle.snx_blocks.specs.Documents.{IsValid};
ghost use Rattle.snx_blocks.specs.Views.{doc_view};
ghost use Rattle.neq_stack.specs.Neqs.{IsSound, neq_view};
ghost use Rattle.enclosures.specs.Vectors.{IsSmall};
ghost use Rattle.enclosure_check.specs.Inputs.{IsRightSide};

use anyhow::{Result, bail};
use chol_factor::factor;
use chol_guess::{midpoint_square, pilot};
use decimal_e::Dec;
use enclosure_check::{WorkingRows, check, start_vector};
use enclosures::{Pilot, Radius};
use equil::{Working, working};
use interval_word::Iv;
use inv_enclose::inverse;
use neq_stack::Neq;
use param_ids::Scales;
use recover_neq::recover;
use snx_blocks::{Doc, read_doc};
use stack_rules::certify;
use std::alloc::Global;
use std::thread::Threads;
use sym_blocks::SymBlock;

// The document that a text is.
pub(crate) fn doc_in<R: Threads + Sync + AllocGlobal>(rt: &R, text: &[u8]) -> Result<Doc>
    ensures { IfOk result (λ doc. IsValid (doc_view doc)) }
{
    if text.len() > 67_108_864 {
        bail!("the file has more than 64 MiB");
    }
    Ok(read_doc(rt, rt.alloc(), text)?)
}

// The normal equations of a document, with the weight 1 and the standard scale exponents.
pub(crate) fn neq_of(alloc: Global, doc: &Doc) -> Result<Neq<16>>
    requires { IsValid (doc_view doc.now) }
    ensures { IfOk result (λ neq. IsSound (neq_view neq)) }
{
    let scales = Scales::standard(alloc)?;
    let Some(weight) = Dec::new(1, 0) else {
        bail!("no decimal is 1");
    };
    let Some(apriori) = &doc.apriori else {
        bail!("the file has no a priori values");
    };
    let Some(vector) = &doc.vector else {
        bail!("the file has no right side");
    };
    let Some(matrix) = &doc.normal_matrix else {
        bail!("the file has no matrix of normal equations");
    };
    Ok(recover(alloc, apriori, vector, &matrix.cells, &weight, &scales)?)
}

// The working table of normal equations.
pub(crate) fn working_of(alloc: Global, neq: &Neq<16>) -> Result<Working<16>>
    requires { IsSound (neq_view neq.now) }
{
    Ok(working(alloc, &neq.table, &neq.right)?)
}

// The inverse of a table is made, as of covariances.
pub(crate) fn inverted<R: Threads + Sync>(
    rt: &R,
    alloc: Global,
    table: &SymBlock<16>,
) -> Result<()> {
    let _inverse = inverse(rt, alloc, table, 24, 1)?;
    Ok(())
}

// The certified numbers of normal equations are made.
pub(crate) fn solved<R: Threads + Sync>(rt: &R, alloc: Global, neq: &Neq<16>) -> Result<()>
    requires { IsSound (neq_view neq.now) }
{
    let _numbers = certify(
        rt,
        alloc,
        &neq.table,
        &neq.right,
        &neq.apriori,
        &neq.scales,
        1,
    )?;
    Ok(())
}

// The factor of a working table's midpoints is made.
pub(crate) fn factored(alloc: Global, w: &Working<16>) -> Result<()> {
    let midpoints = midpoint_square(alloc, w)?;
    let _factor = factor(midpoints)?;
    Ok(())
}

// The pilot of a working table.
pub(crate) fn pilot_of<R: Threads + Sync>(rt: &R, alloc: Global, w: &Working<16>) -> Result<Pilot>
    ensures { IfOk result (λ p. p.size ≡ w.now.a.size) }
{
    Ok(pilot(rt, alloc, w, 1)?)
}

// The intervals of a working table, row by row.
pub(crate) fn rows_of(alloc: Global, w: &Working<16>) -> Result<WorkingRows<'_, 16>>
    ensures { IfOk result (λ rows. rows.table.now ≡ w.now.a) }
{
    Ok(WorkingRows::of(alloc, &w.a)?)
}

// The start vector of a working table and its pilot.
pub(crate) fn vector_of(
    alloc: Global,
    rows: &WorkingRows<'_, 16>,
    d: &[Iv],
    p: &Pilot,
) -> Result<Vec<i128>>
    requires rights { IsRightSide rows.now.table.now.size d.now }
    requires sizes { p.now.size ≡ rows.now.table.now.size }
    ensures len { IfOk result (λ y. vec_len y ≡ rows.now.table.now.size) }
    ensures small { IfOk result (λ y. IsSmall rows.now.table.now.size (at y.items)) }
{
    Ok(start_vector(alloc, rows, d, p)?)
}

// The radii of a start vector.
pub(crate) fn radius_of<R: Threads + Sync>(
    rt: &R,
    alloc: Global,
    rows: &WorkingRows<'_, 16>,
    d: &[Iv],
    p: &Pilot,
    y: &[i128],
) -> Result<Radius>
    requires rights { IsRightSide rows.now.table.now.size d.now }
    requires sizes { p.now.size ≡ rows.now.table.now.size }
    requires len { length y.now ≡ rows.now.table.now.size }
    requires small { IsSmall rows.now.table.now.size (at y.now) }
{
    Ok(check(rt, alloc, rows, d, p, y, 1)?)
}
