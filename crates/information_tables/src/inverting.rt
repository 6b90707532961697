//! Inverses of covariances times a weight.

ghost use Rattle.std.specs.Prelude.{◌≡◌, ◌≤◌, pos, IfOk, IfErr, Ok, Err, length};
ghost use Rattle.sym_blocks.specs.Tables.{before};
ghost use Rattle.named_tables.specs.Weighted.{IsWeight};
ghost use Rattle.inv_enclose.specs.Columns.{IsInverted};
ghost use Rattle.inv_enclose.specs.Inverses.{HoldsInverses, HaveInverses};
ghost use Rattle.information_tables.specs.Parts.{IsNamedInverse, IsWeightedInverse, IsRefusedBy, IsModestTable, IsOfInverse};

use crate::naming::by_name;
use crate::weights::weigh;
use decimal_e::Dec;
use inv_enclose::inverse;
use named_tables::RecoverError;
use param_ids::Names;
use std::alloc::Global;
use std::thread::Threads;
use sym_blocks::SymBlock;

/// The power of ten of covariances without scale exponents.
const POWER: i32 = 24;

/// The inverse of covariances for these names, times 10^(18 + 24).
fn inverse_of<R: Threads + Sync, const N: usize>(
    rt: &R,
    alloc: Global,
    covariances: &SymBlock<N>,
    names: &Names,
    workers: usize,
) -> Result<SymBlock<N>, RecoverError>
    requires some_workers { 1 ≤ workers }
    requires few_workers { workers ≤ 16 }
    ensures inverse { IfOk result (λ inverse. IsNamedInverse names.now covariances.now (Ok inverse)) }
    ensures refused { IfErr result (IsRefusedBy (IsNamedInverse names.now covariances.now)) }
    ensures holds { IfOk result (HoldsInverses covariances.now (pos 24)) }
    ensures exists { IfOk result (λ inverse. HaveInverses covariances.now) }
    ensures size { IfOk result (λ inverse. inverse.size ≡ covariances.now.size) }
    ensures lower { IfOk result (λ inverse. length inverse.entries ≡ before inverse.size) }
{
    match inverse(rt, alloc, covariances, POWER, workers) {
        Ok(inverse) => Ok(inverse),
        Err(refusal) => Err(by_name(names, refusal)),
    }
}

/// The inverse of covariances for these names, times the weight and 10^(18 + 24).
pub fn weighted_inverse<R: Threads + Sync, const N: usize>(
    rt: &R,
    alloc: Global,
    covariances: &SymBlock<N>,
    weight: &Dec,
    names: &Names,
    workers: usize,
) -> Result<SymBlock<N>, RecoverError>
    requires weight { IsWeight weight.now }
    requires size { covariances.now.size ≡ length names.now }
    requires some_workers { 1 ≤ workers }
    requires few_workers { workers ≤ 16 }
    ensures table { IfOk result (λ table. IsWeightedInverse weight.now names.now covariances.now (Ok table)) }
    ensures refused { IfErr result (IsRefusedBy (IsWeightedInverse weight.now names.now covariances.now)) }
    ensures made { IfOk result (IsOfInverse weight.now covariances.now) }
{
    match inverse_of(rt, alloc, covariances, names, workers) {
        Ok(mut table) => match weigh(&mut table, weight, names) {
            Ok(()) => Ok(table),
            Err(cause) => Err(cause),
        },
        Err(cause) => Err(cause),
    }
}
