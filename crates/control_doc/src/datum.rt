//! The datum.

ghost use Rattle.std.specs.Prelude.{◌≡◌, List, [], map, option_map, codes, IfOk, Ok, Some, None};
ghost use Rattle.std.specs.List.{list_any};
ghost use Rattle.toml.specs.Data.{get_member};
ghost use Rattle.toml.specs.View.{table_view};
ghost use Rattle.control_doc.specs.Control as spec;
ghost use Rattle.control_doc.specs.Faults.{and_then, or_fault};
ghost use Rattle.control_doc.specs.Tables.{there, text_lists_at};
ghost use Rattle.control_doc.specs.Views.{Answers, datum_view};
ghost use Rattle.control_doc.specs.declared.faults.ControlCause.TheVariants as causes;

use crate::arrays::text_lists_at;
use crate::decimals::sigma;
use crate::faults::{ControlCause, ControlError};
use crate::keys::{fault, only_keys, value_at};
use crate::plans::{Datum, Site};
use crate::texts::{code_of_name, point_of_name, soln_of_name};
use std::alloc::{AllocError, Global};
use toml::Table;

/// The most sites.
const MOST_SITES: usize = 100;

/// The site of three texts.
fn site_of(texts: &[&str]) -> Option<Site>
    ensures { result ≡ spec.site_of (map (λ text. text.now) texts.now) }
{
    match texts {
        [code, point, soln] => {
            let code = code_of_name(code.as_bytes())?;
            let point = point_of_name(point.as_bytes())?;
            let soln = soln_of_name(soln.as_bytes())?;
            Some(Site { code, point, soln })
        }
        _ => None,
    }
}

/// The sites that the lists are, if all are sites.
#[tactic(auto, using(crate::proofs::SiteLists::sites_more, crate::proofs::SiteLists::sites_none))]
fn sites_of(alloc: Global, lists: &[Vec<&str>]) -> Result<Option<Vec<Site>>, AllocError>
    ensures { IfOk result (λ found. option_map (λ sites. sites.items) found ≡ spec.sites_of (map (λ texts. map (λ text. text.now) texts.items) lists.now)) }
{
    let mut sites = Vec::new(alloc);
    'lists: for texts in lists {
        let Some(site) = site_of(texts) else {
            return Ok(None);
        };
        sites.push(site)?;
    }
    Ok(Some(sites))
}

fn is_same_site(a: &Site, b: &Site) -> bool
    ensures { result ≡ spec.is_same_site a.now b.now }
{
    a.code == b.code && a.point == b.point && a.soln == b.soln
}

fn has_site(sites: &[Site], site: &Site) -> bool
    ensures { result ≡ list_any (spec.is_same_site site.now) sites.now }
{
    match sites {
        [] => false,
        [other, rest @ ..] => is_same_site(site, other) || has_site(rest, site),
    }
}

/// Whether a site stands twice.
fn has_twice(sites: &[Site]) -> bool
    ensures { result ≡ spec.has_twice sites.now }
{
    match sites {
        [] => false,
        [site, rest @ ..] => has_site(rest, site) || has_twice(rest),
    }
}

fn without_twice(alloc: Global, sites: Vec<Site>) -> Result<Vec<Site>, ControlError>
    ensures { Answers (λ sites. sites.items) (spec.Is (spec.without_twice sites.items)) result }
{
    if has_twice(&sites) {
        return Err(fault(alloc, ControlCause::Repeated, "datum.sites"));
    }
    Ok(sites)
}

fn counted<'a>(alloc: Global, lists: Vec<Vec<&'a str>>) -> Result<Vec<Vec<&'a str>>, ControlError>
    ensures { Answers (λ lists. map (λ texts. map (λ text. text.now) texts.items) lists.items) (spec.Is (spec.site_count (map (λ texts. map (λ text. text.now) texts.items) lists.entry.items))) result }
{
    if lists.is_empty() || lists.len() > MOST_SITES {
        return Err(fault(alloc, ControlCause::Value, "datum.sites"));
    }
    Ok(lists)
}

fn site_texts<'a>(alloc: Global, table: &'a Table) -> Result<Vec<Vec<&'a str>>, ControlError>
    ensures { Answers (λ lists. map (λ texts. map (λ text. text.now) texts.items) lists.items) (spec.Is (and_then (and_then (there spec.sites_path (get_member (codes "sites") (table_view table.now))) (text_lists_at spec.sites_path)) spec.site_count)) result }
{
    let Some(value) = value_at(table, "sites") else {
        return Err(fault(alloc, ControlCause::Key, "datum.sites"));
    };
    match text_lists_at(alloc, "datum.sites", value) {
        Ok(lists) => counted(alloc, lists),
        Err(error) => Err(error),
    }
}

fn sites_named(alloc: Global, lists: &[Vec<&str>]) -> Result<Vec<Site>, ControlError>
    ensures { Answers (λ sites. sites.items) (spec.Is (or_fault causes.Value spec.sites_path (spec.sites_of (map (λ texts. map (λ text. text.now) texts.items) lists.now)))) result }
{
    match sites_of(alloc, lists) {
        Ok(Some(sites)) => Ok(sites),
        Ok(None) => Err(fault(alloc, ControlCause::Value, "datum.sites")),
        Err(_) => Err(ControlError::Memory),
    }
}

/// The keys of the table.
const KEYS: [&str; 4] = ["sites", "translation", "rotation", "scale"];

fn sites_in(alloc: Global, table: &Table) -> Result<Vec<Site>, ControlError>
    ensures { Answers (λ sites. sites.items) (spec.Is (spec.sites_in (table_view table.now))) result }
{
    only_keys(alloc, "datum", &KEYS, table)?;
    let lists = site_texts(alloc, table)?;
    let sites = sites_named(alloc, &lists)?;
    without_twice(alloc, sites)
}

fn with_sigma(alloc: Global, datum: Datum) -> Result<Datum, ControlError>
    ensures { Answers datum_view (spec.Is (spec.with_sigma (datum_view datum))) result }
{
    if datum.translation.is_none() && datum.rotation.is_none() && datum.scale.is_none() {
        return Err(fault(alloc, ControlCause::Value, "datum"));
    }
    Ok(datum)
}

fn datum_of(alloc: Global, table: &Table) -> Result<Option<Datum>, ControlError>
    ensures { Answers (λ datum. option_map datum_view datum) (spec.IsDatumIn (table_view table.now)) result }
{
    let sites = sites_in(alloc, table)?;
    let translation = sigma(alloc, table, "translation")?;
    let rotation = sigma(alloc, table, "rotation")?;
    let scale = sigma(alloc, table, "scale")?;
    let datum = with_sigma(
        alloc,
        Datum {
            sites,
            translation,
            rotation,
            scale,
        },
    )?;
    Ok(Some(datum))
}

/// The datum that its table says, if there is one.
pub(crate) fn datum_in(alloc: Global, table: Option<&Table>) -> Result<Option<Datum>, ControlError>
    ensures { Answers (λ datum. option_map datum_view datum) (spec.IsDatum (option_map (λ table. table_view table.now) table.entry)) result }
{
    match table {
        Some(table) => datum_of(alloc, table),
        None => Ok(None),
    }
}
