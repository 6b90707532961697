//! One a priori value and one unit for each name.

ghost use Rattle.std.specs.Prelude.{◌≡◌, ◌↔◌, ◌++◌, ◌∷◌, [], List, IsTrue, IfOk, IfErr, Ok, Err, flat_map};
ghost use Rattle.std.specs.BTreeMap.{get};
ghost use Rattle.std.specs.Option.{option_map};
ghost use Rattle.std.specs.declared.cmp.Ordering.TheVariants.{Less};
ghost use Rattle.param_ids.specs.Order.{id_cmp};
ghost use Rattle.snx_rows.specs.declared.rows.Row.{Row as PlainRow};
ghost use Rattle.apriori_shift.specs.Common.{IsCommon};
ghost use Rattle.apriori_shift.specs.declared.commons.CommonError.TheVariants.{Memory};
ghost use Rattle.apriori_shift.specs.Answers.{HasFirstRows, IfClash};
ghost use Rattle.apriori_shift.specs.Firsts.{IsLesser, Stands};

use param_ids::ParamId;
use snx_rows::Row;
use std::alloc::{AllocError, Global};
use std::cmp::Ordering;
use std::collections::BTreeMap;
use thiserror::Error;

/// The common a priori values and units: of each name the row that counts.
pub type Apriori = BTreeMap<ParamId, Row>;

/// Why there are no common values.
#[derive(Clone, Copy, Debug, PartialEq, Eq, Error)]
pub enum CommonError {
    /// The least name with two units.
    #[error("two units")]
    UnitClash { id: ParamId },
    /// Memory is wanting.
    #[error("out of memory")]
    Memory,
}

impl From<AllocError> for CommonError {
    ghost from_gives = { λ _ r. r ≡ Memory };

    fn from(_refusal: AllocError) -> CommonError {
        CommonError::Memory
    }
}

/// The unit of the row of a name.
fn unit_in(base: &Apriori, id: &ParamId) -> Option<[u8; 4]>
    ensures { result ≡ option_map (λ row. row.unit) (get id_cmp base.now id.now) }
{
    match base.get(id) {
        Some(row) => Some(row.unit),
        None => None,
    }
}

/// Whether two units are one.
fn is_same_unit(one: &[u8; 4], other: &[u8; 4]) -> bool
    ensures { IsTrue result ↔ (one.now ≡ other.now) }
{
    one == other
}

/// Whether a name stands below another.
fn is_below(one: &ParamId, other: &ParamId) -> bool
    ensures { IsTrue result ↔ (id_cmp one.now other.now ≡ Less) }
{
    one.cmp(other) == Ordering::Less
}

/// The lesser of a name and one that may be known.
fn lesser(known: Option<ParamId>, id: ParamId) -> ParamId
    ensures { IsLesser known id result }
{
    match known {
        Some(old) => { if is_below(&id, &old) { id } else { old } }
        None => id,
    }
}

/// Adds a row to those before it. The least name with two units, if there is one then.
fn add_row(
    base: &mut Apriori,
    clash: Option<ParamId>,
    row: &Row,
) -> Result<Option<ParamId>, AllocError>
    ensures { (before : List PlainRow) → Stands base.old clash before → IfOk result (λ later. Stands base.new later (before ++ row.now ∷ [])) }
{
    match unit_in(base, &row.id) {
        Some(unit) => {
            if is_same_unit(&unit, &row.unit) {
                Ok(clash)
            } else {
                Ok(Some(lesser(clash, row.id)))
            }
        }
        None => {
            if base.insert(row.id, *row).is_err() {
                return Err(AllocError);
            }
            Ok(clash)
        }
    }
}

/// Adds the rows of a file to those before them. The least name with two units, if there is one then.
fn add_rows(
    base: &mut Apriori,
    clash: Option<ParamId>,
    rows: &[Row],
) -> Result<Option<ParamId>, AllocError>
    ensures { (before : List PlainRow) → Stands base.old clash before → IfOk result (λ later. Stands base.new later (before ++ rows.now)) }
{
    let mut clash = clash;
    for row in rows {
        clash = add_row(base, clash, row)?;
    }
    Ok(clash)
}

/// The common a priori values of the rows of some files, where a file counts more than those after it: of each name the row that comes
/// first.
///
/// # Errors
///
/// UnitClash, with the least name that has two units in any of the files; or want of memory.
pub fn common(alloc: Global, files: &[&[Row]]) -> Result<Apriori, CommonError>
    ensures common { IfOk result (λ base. (rows : List PlainRow) × IsCommon (flat_map (λ file. file.now) files.now) (Ok rows) × HasFirstRows base rows) }
    ensures clash { IfErr result (IfClash (λ id. IsCommon (flat_map (λ file. file.now) files.now) (Err id))) }
{
    let mut base = BTreeMap::new(alloc);
    let mut clash = None;
    for rows in files {
        clash = add_rows(&mut base, clash, rows)?;
    }
    match clash {
        Some(id) => Err(CommonError::UnitClash { id }),
        None => Ok(base),
    }
}
