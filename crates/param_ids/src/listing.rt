//! Lists of names.

ghost use Rattle.std.specs.Prelude.{◌≡◌, ◌<◌, ◌≤◌, length, Contains, Some, IfSome, IfNone, IfOk, slice_get, IsTrue, ◌↔◌};
ghost use Rattle.std.specs.List.Sorted.{IsSorted, IsPermutation, IsBinarySearchResult, IsSearchInRange};
ghost use Rattle.param_ids.specs.Order.{id_cmp, IsRising};
ghost use Rattle.param_ids.specs.Lists.{IsListed, IsLeastRepeat};
ghost use Rattle.param_ids.specs.Union.{IsUnion, IsMerged};

use crate::ids::ParamId;
use std::alloc::{AllocError, Global};
use std::cmp::Ordering;
use std::marker::Model;
use thiserror::Error;

/// Names in order, none twice, at most 1,000.
#[derive(Drop)]
pub struct Names {
    alloc: Global,
    items: Vec<ParamId>,
}

impl Model for Names {
    ghost use Rattle.std.specs.Prelude.{List};
    ghost use Rattle.param_ids.specs.Plain.{PlainId};

    ghost Value = { List PlainId };

    ghost use Rattle.param_ids.specs.Order.{IsNames};

    ghost view = { λ n. n.items.items };

    ghost invariant = { λ n. IsNames n.items.items };
}

/// Why a list gives no names.
#[derive(Debug, Drop, Error)]
pub enum NamesError {
    /// A name stands twice: the least such.
    #[error("a name stands twice")]
    Repeated {
        /// The name.
        id: ParamId,
    },
    /// There are more than 1,000.
    #[error("{count} names")]
    TooMany {
        /// How many there are.
        count: u32,
    },
    /// Want of memory.
    #[error("out of memory")]
    Memory,
}

/// How two names stand.
fn order_of(a: &ParamId, b: &ParamId) -> Ordering
    ensures { result ≡ id_cmp a.now b.now }
{
    a.cmp(b)
}

/// The names of a list, in order.
fn in_order(alloc: Global, list: &[ParamId]) -> Result<Vec<ParamId>, AllocError>
    ensures names { IfOk result (λ ids. IsPermutation list.now ids.items) }
    ensures order { IfOk result (λ ids. IsSorted id_cmp ids.items) }
    ensures len { IfOk result (λ ids. length ids.items ≡ length list.now) }
{
    let mut items = Vec::new(alloc);
    items.extend_from_slice(list)?;
    items.sort_unstable();
    Ok(items)
}

/// In a list in order, the first name that stands twice.
fn first_repeat(ids: &[ParamId]) -> Option<ParamId>
    requires { IsSorted id_cmp ids.now }
    ensures some { IfSome result (IsLeastRepeat ids.now) }
    ensures none { IfNone result (IsRising ids.now) }
{
    for i in 1..ids.len() {
        if order_of(&ids[i - 1], &ids[i]) != Ordering::Less {
            return Some(ids[i - 1]);
        }
    }
    None
}

/// Where a name stands in names in order, or where it would.
fn place_of(ids: &[ParamId], id: &ParamId) -> Result<usize, usize>
    ensures bound { IsSearchInRange result (length ids.now) }
    ensures position { IsBinarySearchResult (λ y. id_cmp y id.now) ids.now result }
{
    ids.binary_search(id)
}

/// The names of both lists, in order, each once.
fn union_of(alloc: Global, one: &[ParamId], other: &[ParamId]) -> Result<Vec<ParamId>, AllocError>
    requires one { length one.now ≤ 1000 }
    requires other { length other.now ≤ 1000 }
    ensures union { IfOk result (λ ids. IsUnion one.now other.now ids.items) }
    ensures len { IfOk result (λ ids. length ids.items ≤ 2000) }
{
    let mut both = Vec::new(alloc);
    both.extend_from_slice(one)?;
    both.extend_from_slice(other)?;
    both.sort_unstable();
    both.dedup();
    Ok(both)
}

impl Names {
    /// The names of a list of at most 65,535.
    ///
    /// # Errors
    ///
    /// Repeated with the least name that stands twice; else TooMany with the length where it is over 1,000; or want of memory.
    pub fn from_list(alloc: Global, list: &[ParamId]) -> Result<Names, NamesError>
        requires { length list.now ≤ 65535 }
        ensures { IsListed list.now result }
    {
        let Ok(items) = in_order(alloc, list) else {
            return Err(NamesError::Memory);
        };
        if let Some(id) = first_repeat(&items) {
            return Err(NamesError::Repeated { id });
        }
        if items.len() > 1000 {
            return Err(NamesError::TooMany {
                count: items.len() as u32,
            });
        }
        Ok(Names { alloc, items })
    }

    /// How many names there are.
    pub fn len(&self) -> usize
        ensures value { result ≡ length self.now }
        ensures most { result ≤ 1000 }
    {
        self.items.len()
    }

    /// Whether there is none.
    pub fn is_empty(&self) -> bool
        ensures { IsTrue result ↔ (length self.now ≡ 0) }
    {
        self.items.len() == 0
    }

    /// The name at a place, from 0.
    pub fn at(&self, i: usize) -> &ParamId
        requires { i < length self.now }
        ensures { slice_get self.now i ≡ Some result.now }
    {
        &self.items[i]
    }

    /// The place of a name, or none where it is not there.
    pub fn find(&self, id: &ParamId) -> Option<usize>
        ensures some { IfSome result (λ i. slice_get self.now i ≡ Some id.now) }
        ensures none { IfNone result (Contains self.now id.now → ⊥) }
    {
        match place_of(&self.items, id) {
            Ok(place) => Some(place),
            Err(_) => None,
        }
    }

    /// The names of both lists.
    ///
    /// # Errors
    ///
    /// TooMany with the size of the union where it is over 1,000; or want of memory.
    pub fn merge(&self, other: &Names) -> Result<Names, NamesError>
        ensures { IsMerged self.now other.now result }
    {
        let Ok(all) = union_of(self.alloc, &self.items, &other.items) else {
            return Err(NamesError::Memory);
        };
        if all.len() > 1000 {
            return Err(NamesError::TooMany {
                count: all.len() as u32,
            });
        }
        Ok(Names {
            alloc: self.alloc,
            items: all,
        })
    }

    /// The same names once more.
    ///
    /// # Errors
    ///
    /// Want of memory.
    pub fn clone_in(&self) -> Result<Names, AllocError>
        ensures { IfOk result (λ names. names ≡ self.now) }
    {
        let mut items = Vec::new(self.alloc);
        items.extend_from_slice(&self.items)?;
        Ok(Names {
            alloc: self.alloc,
            items,
        })
    }
}
