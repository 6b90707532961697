//! The powers of ten by which parameters are scaled.

ghost use Rattle.std.specs.Prelude.{◌≡◌, ◌<◌, ◌+◌, if◌then◌else◌, IfOk, OnOk, OnErr, IsNone};
ghost use Rattle.std.specs.FinMap as map;
ghost use Rattle.param_ids.specs.Tables.{scale_in, standard_scales, IsScale};

use std::alloc::{AllocError, Global};
use std::collections::BTreeMap;
use std::marker::Model;

/// At most 64 types of parameters with their powers of ten, from -4 to 6.
#[derive(Drop)]
pub struct Scales {
    table: BTreeMap<[u8; 6], i32>,
}

impl Model for Scales {
    ghost use Rattle.std.specs.Coded.{coded_ℕ, coded_ℤ, coded_list};
    ghost use Rattle.std.specs.FinMap as map;
    ghost use Rattle.param_ids.specs.Tables.{ScaleMap, IsScaleMap};

    ghost Value = { ScaleMap };

    ghost coded = { map.code (coded_list coded_ℕ) coded_ℤ };

    ghost view = { λ s. map.from_entries s.table.entries };

    ghost invariant = { λ s. IsScaleMap (map.from_entries s.table.entries) };
}

impl Scales {
    /// The standard: 6 for `RS_RA` and `RS_DE`.
    ///
    /// # Errors
    ///
    /// Want of memory.
    pub fn standard(alloc: Global) -> Result<Scales, AllocError>
        ensures scales { IfOk result (λ scales. scales ≡ standard_scales) }
        ensures size { IfOk result (λ scales. map.len scales ≡ 2) }
    {
        let mut table = BTreeMap::new(alloc);
        if table.insert(*b"RS_RA ", 6).is_err() {
            return Err(AllocError);
        }
        if table.insert(*b"RS_DE ", 6).is_err() {
            return Err(AllocError);
        }
        Ok(Scales { table })
    }

    /// Gives a type its number, in the place of one that it had.
    ///
    /// # Errors
    ///
    /// Want of memory; the table is then as it was.
    pub fn set(&mut self, kind: [u8; 6], t: i32) -> Result<(), AllocError>
        requires range { IsScale t }
        requires room { IsNone (map.get self.old kind) → map.len self.old < 64 }
        ensures ok { OnOk result (self.new ≡ map.insert self.old kind t) }
        ensures size { OnOk result (map.len self.new ≡ (if map.contains_key self.old kind then map.len self.old else map.len self.old + 1)) }
        ensures err { OnErr result (self.new ≡ self.old) }
    {
        if self.table.insert(kind, t).is_err() {
            return Err(AllocError);
        }
        Ok(())
    }
}

/// The number of a type, or 0 where it has none.
pub fn scale_of(kind: &[u8; 6], table: &Scales) -> i32
    ensures value { result ≡ scale_in table.now kind.now }
    ensures range { IsScale result }
{
    table.table.get(kind).copied().unwrap_or(0)
}
