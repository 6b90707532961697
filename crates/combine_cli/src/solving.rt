//! The numbers of a stack, by the rules.

ghost use Rattle.std.specs.Prelude.{◌≡◌, ◌≢◌, ◌≤◌, All, IfOk, IfErr, Ok, Err, length};
ghost use Rattle.bounds_report.specs.Printing.{HasSmallDeviation};
ghost use Rattle.neq_stack.specs.Neqs.{IsSound, neq_view};
ghost use Rattle.refusal_lines.specs.Refusals.{status_of};
ghost use Rattle.run_inputs.specs.Views.{IfTold};
ghost use Rattle.combine_cli.specs.Causes.{refusal_of_rules};
ghost use Rattle.stack_rules.specs.Rules.{numbers_in};
ghost use Rattle.combine_cli.specs.Combination.{Solves};
ghost use Rattle.combine_cli.specs.Headline.{AreCertifiedOf};

use crate::naming::name_at;
use neq_stack::Neq;
use param_ids::Names;
use refusal_lines::{Refusal, Scope};
use stack_rules::{Solved, StackError, certify};
use std::alloc::Global;
use std::thread::Threads;

// The refusal of a stack of these names for a cause of the rules.
fn refusal_of_rules(names: &Names, cause: StackError) -> Refusal
    ensures told { result ≡ refusal_of_rules names.now cause }
    ensures no_fault { status_of result ≢ 5 }
{
    let place = Scope::Stack;
    match cause {
        StackError::Range { row, col } => Refusal::Range {
            place,
            row: name_at(names, row),
            col: name_at(names, col),
        },
        StackError::Pivot { row } => Refusal::Pivot {
            place,
            id: name_at(names, row),
        },
        StackError::Condition { col } => Refusal::Condition {
            place,
            id: name_at(names, col),
        },
        StackError::Residual { row, size } => Refusal::Residual {
            place,
            id: name_at(names, row),
            size,
        },
        StackError::Defect { row, parts } => Refusal::Defect {
            place,
            id: name_at(names, row),
            parts,
        },
        StackError::Memory => Refusal::Memory,
    }
}

// The certified numbers of normal equations, or the refusal of the rules.
pub fn solved<R: Threads + Sync>(
    rt: &R,
    alloc: Global,
    neq: &Neq<16>,
    workers: usize,
) -> Result<Solved, Refusal>
    requires sound { IsSound (neq_view neq.now) }
    requires some_workers { 1 ≤ workers }
    requires few_workers { workers ≤ 16 }
    ensures solves { IfOk result (λ solved. Solves (neq_view neq.now) (Ok (numbers_in solved))) }
    ensures certified { IfOk result (λ solved. AreCertifiedOf (neq_view neq.now) (numbers_in solved)) }
    ensures rows { IfOk result (λ solved. length solved.rows.items ≡ length neq.now.names) }
    ensures deviations { IfOk result (λ solved. All HasSmallDeviation solved.rows.items) }
    ensures refused { IfErr result (IfTold (λ refusal. Solves (neq_view neq.now) (Err refusal))) }
    ensures no_fault { IfErr result (λ refusal. status_of refusal ≢ 5) }
{
    match certify(
        rt,
        alloc,
        &neq.table,
        &neq.right,
        &neq.apriori,
        &neq.scales,
        workers,
    ) {
        Ok(solved) => Ok(solved),
        Err(cause) => Err(refusal_of_rules(&neq.names, cause)),
    }
}
