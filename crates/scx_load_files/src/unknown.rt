ghost use Rattle.std.specs.Prelude.{◌≡◌, None, IfOk, option_map, string_bytes};
ghost use Rattle.toml.specs.View.{view, table_view, items_view};
ghost use Rattle.scx_load_files.specs.Faults.{Gives};
ghost use Rattle.scx_load_files.specs.Unknown.{is_known, unknown, unknown_of, unknown_from, unknown_of_each, unknown_in, unknown_in_each, lesser, least_with, words, least_path, refuse_least, LeastIsFound};

use crate::fault::{Cause, LoadError};
use crate::keys::shown_path;
use crate::path::{element_path, key_path};
use crate::section::Section;
use std::alloc::{AllocError, Global};
use toml::{Table, Value};

/// The unknown keys that were met so far. Only the path that is least by its bytes is kept.
#[derive(Drop)]
pub struct Unknown {
    least: Option<String>,
}

impl Unknown {
    /// None so far.
    pub fn none() -> Unknown
        ensures { least_path result ≡ None }
    {
        Unknown { least: None }
    }

    /// These, and the unknown keys of this table.
    pub fn in_section(
        self,
        alloc: Global,
        section: Section<'_>,
        known: &[&str],
    ) -> Result<Unknown, AllocError>
        ensures { IfOk result
            (λ u. least_path u
            ≡ least_with (least_path self)
            (unknown (words known.now) section.entry.path.now
            (table_view section.entry.table.now))) }
    {
        self.in_table(alloc, section.path, section.table, known)
    }

    /// These, and the unknown keys of the table at a key of this one, if a table is there.
    pub fn below(
        self,
        alloc: Global,
        section: Section<'_>,
        key: &str,
        known: &[&str],
    ) -> Result<Unknown, AllocError>
        ensures { IfOk result
            (λ u. least_path u
            ≡ least_with (least_path self)
            (unknown_in (words known.now) section.entry.path.now key.now
            (table_view section.entry.table.now))) }
    {
        match section.value(key) {
            Some(value) => {
                let path = key_path(alloc, section.path, key)?;
                self.in_value(alloc, &path, value, known)
            }
            None => Ok(self),
        }
    }

    /// These, and the unknown keys of each table of the array at a key, if an array is there.
    pub fn below_each(
        self,
        alloc: Global,
        section: Section<'_>,
        key: &str,
        known: &[&str],
    ) -> Result<Unknown, AllocError>
        ensures { IfOk result
            (λ u. least_path u
            ≡ least_with (least_path self)
            (unknown_in_each (words known.now) section.entry.path.now key.now
            (table_view section.entry.table.now))) }
    {
        match section.value(key) {
            Some(value) => {
                let path = key_path(alloc, section.path, key)?;
                self.in_array(alloc, &path, value, known)
            }
            None => Ok(self),
        }
    }

    /// Refuses the least of them, if there is one.
    pub fn refuse(self) -> Result<(), LoadError>
        ensures { Gives (λ t. t) result (refuse_least (least_path self)) }
    {
        match self.least {
            Some(path) => Err(LoadError::At {
                path,
                cause: Cause::Unknown,
            }),
            None => Ok(()),
        }
    }

    fn in_table(
        self,
        alloc: Global,
        path: &str,
        table: &Table,
        known: &[&str],
    ) -> Result<Unknown, AllocError>
        ensures { IfOk result
            (λ u. least_path u
            ≡ least_with (least_path self)
            (unknown (words known.now) path.now (table_view table.now))) }
    {
        let mut least = self.least;
        for (key, _value) in table {
            if !is_known(known, key) {
                least = Some(lesser(shown_path(alloc, path, key)?, least));
            }
        }
        Ok(Unknown { least })
    }

    fn in_value(
        self,
        alloc: Global,
        path: &str,
        value: &Value,
        known: &[&str],
    ) -> Result<Unknown, AllocError>
        ensures { IfOk result
            (λ u. least_path u
            ≡ least_with (least_path self)
            (unknown_of (words known.now) path.now (view value.now))) }
    {
        match value.as_table() {
            Some(table) => self.in_table(alloc, path, table, known),
            None => Ok(self),
        }
    }

    fn in_array(
        self,
        alloc: Global,
        path: &str,
        value: &Value,
        known: &[&str],
    ) -> Result<Unknown, AllocError>
        ensures { IfOk result
            (λ u. least_path u
            ≡ least_with (least_path self)
            (unknown_of_each (words known.now) path.now (view value.now))) }
    {
        match value.as_array() {
            Some(values) => self.in_elements(alloc, path, values, known),
            None => Ok(self),
        }
    }

    fn in_elements(
        self,
        alloc: Global,
        path: &str,
        values: &[Value],
        known: &[&str],
    ) -> Result<Unknown, AllocError>
        ensures { IfOk result
            (λ u. least_path u
            ≡ least_with (least_path self)
            (unknown_from (words known.now) path.now 0 (items_view values.now))) }
    {
        let mut unknown = self;
        for (number, value) in values.iter().enumerate() {
            let path = element_path(alloc, path, number)?;
            unknown = unknown.in_value(alloc, &path, value, known)?;
        }
        Ok(unknown)
    }
}

/// The path that is less by its bytes.
fn lesser(path: String, least: Option<String>) -> String
    ensures { string_bytes result ≡ lesser (string_bytes path) (option_map string_bytes least) }
{
    match least {
        Some(least) => { if path < least { path } else { least } }
        None => path,
    }
}

fn is_known(known: &[&str], key: &str) -> bool
    ensures { result ≡ is_known (words known.now) key.now }
{
    for name in known {
        if *name == key {
            return true;
        }
    }
    false
}

/// The named path is one of the given paths, and greater than none of them. The function does nothing: its
/// contract is the law.
pub fn least_path_is_named()
    ensures { LeastIsFound }
{}
