ghost use Rattle.std.specs.Prelude.{◌≡◌, ◌<◌, ◌^◌, [], None, IfOk, IfSome, option_map};
ghost use Rattle.toml.specs.Data.{no_items, get_member};
ghost use Rattle.toml.specs.View.{view, table_view, items_view};
ghost use Rattle.scx_load_files.specs.Faults.{Gives};
ghost use Rattle.scx_load_files.specs.Paths.{below};
ghost use Rattle.scx_load_files.specs.Values.{document, required, optional, table_of, integer_of, natural, natural_of, text_of, name_of, elements_of, within};

use crate::fault::{Cause, LoadError, refused, refused_at};
use crate::names::is_name;
use std::alloc::Global;
use toml::{Table, Value};

/// The range of a key's numbers, both ends included.
#[derive(Clone, Copy)]
pub struct Limits {
    pub least: u32,
    pub most: u32,
}

/// A table of a file and its path, which is empty for the table of the whole file.
#[derive(Clone, Copy)]
pub struct Section<'a> {
    pub table: &'a Table,
    pub path: &'a str,
}

/// The table of the whole file (TOML 1.1).
pub fn read_document(alloc: Global, text: &str) -> Result<Table, LoadError>
    ensures { Gives table_view result (document text.now) }
{
    match toml::table_from_str(alloc, text) {
        Ok(table) => Ok(table),
        Err(error) => {
            if error.is_memory() {
                return Err(LoadError::NoMemory);
            }
            refused(alloc, "", "file", Cause::NotToml)
        }
    }
}

impl<'a> Section<'a> {
    /// The table of the whole file.
    pub fn whole(table: &'a Table) -> Section<'a>
        ensures table { table_view result.table.now ≡ table_view table.now }
        ensures path { result.path.now ≡ [] }
    {
        Section { table, path: "" }
    }

    /// The table at a path; `WrongType` where the value there is no table.
    pub fn of(alloc: Global, path: &'a str, value: &'a Value) -> Result<Section<'a>, LoadError>
        ensures table { Gives (λ s. table_view s.table.now) result
            (table_of path.now (view value.now)) }
        ensures path { IfOk result (λ s. s.path.now ≡ path.now) }
    {
        match value.as_table() {
            Some(table) => Ok(Section { table, path }),
            None => refused_at(alloc, path, Cause::WrongType),
        }
    }

    /// The value at a key.
    pub fn value(self, key: &str) -> Option<&'a Value>
        ensures { option_map (λ v. view v.now) result
            ≡ get_member key.now (table_view self.entry.table.now) }
    {
        self.table.get(key)
    }

    /// The number at a key that has to be there. `Missing`, `WrongType`, or `OutOfRange`.
    pub fn integer(self, alloc: Global, key: &str, limits: Limits) -> Result<u32, LoadError>
        ensures { Gives (λ n. n) result
            (required (integer_of limits) self.entry.path.now key.now
            (table_view self.entry.table.now)) }
    {
        match self.value(key) {
            Some(value) => self.number(alloc, key, value, limits),
            None => refused(alloc, self.path, key, Cause::Missing),
        }
    }

    /// The number at a key that may be absent. `WrongType` or `OutOfRange`.
    pub fn integer_or(
        self,
        alloc: Global,
        key: &str,
        limits: Limits,
        default: u32,
    ) -> Result<u32, LoadError>
        ensures { Gives (λ n. n) result
            (optional (integer_of limits) default self.entry.path.now key.now
            (table_view self.entry.table.now)) }
    {
        match self.value(key) {
            Some(value) => self.number(alloc, key, value, limits),
            None => Ok(default),
        }
    }

    /// The number at a key that may be absent, from 0 to 2^63 - 1. `WrongType` or `OutOfRange`.
    pub fn natural_or(self, alloc: Global, key: &str, default: u64) -> Result<u64, LoadError>
        requires { default < 2 ^ 63 }
        ensures number { Gives (λ n. n) result
            (optional natural_of default self.entry.path.now key.now
            (table_view self.entry.table.now)) }
        ensures few { IfOk result (λ n. n < 2 ^ 63) }
    {
        match self.value(key) {
            Some(value) => self.natural(alloc, key, value),
            None => Ok(default),
        }
    }

    /// The text at a key that has to be there. `Missing` or `WrongType`.
    pub fn text(self, alloc: Global, key: &str) -> Result<&'a str, LoadError>
        ensures { Gives (λ t. t.now) result
            (required text_of self.entry.path.now key.now (table_view self.entry.table.now)) }
    {
        match self.value(key) {
            Some(value) => self.text_in(alloc, key, value),
            None => refused(alloc, self.path, key, Cause::Missing),
        }
    }

    /// The name at a key that has to be there. `Missing`, `WrongType` or `BadName`.
    pub fn name(self, alloc: Global, key: &str) -> Result<&'a str, LoadError>
        ensures { Gives (λ t. t.now) result
            (required name_of self.entry.path.now key.now (table_view self.entry.table.now)) }
    {
        match self.value(key) {
            Some(value) => self.name_in(alloc, key, value),
            None => refused(alloc, self.path, key, Cause::Missing),
        }
    }

    /// The name that the value at a key is. `WrongType` or `BadName`.
    pub fn name_in(self, alloc: Global, key: &str, value: &'a Value) -> Result<&'a str, LoadError>
        ensures { Gives (λ t. t.now) result
            (name_of (below self.entry.path.now key.now) (view value.now)) }
    {
        let text = self.text_in(alloc, key, value)?;
        if !is_name(text) {
            return refused(alloc, self.path, key, Cause::BadName);
        }
        Ok(text)
    }

    /// The text that the value at a key is. `WrongType`.
    pub fn text_in(self, alloc: Global, key: &str, value: &'a Value) -> Result<&'a str, LoadError>
        ensures { Gives (λ t. t.now) result
            (text_of (below self.entry.path.now key.now) (view value.now)) }
    {
        match value.as_str() {
            Some(text) => Ok(text),
            None => refused(alloc, self.path, key, Cause::WrongType),
        }
    }

    /// The elements of the array at a key, none where the key is absent. `WrongType`, or `TooMany`
    /// where there are more than `most`.
    pub fn elements(self, alloc: Global, key: &str, most: usize) -> Result<&'a [Value], LoadError>
        ensures { Gives (λ values. items_view values.now) result
            (optional (elements_of most) no_items self.entry.path.now key.now
            (table_view self.entry.table.now)) }
    {
        match self.value(key) {
            Some(value) => self.elements_in(alloc, key, value, most),
            None => Ok(&[]),
        }
    }

    fn number(
        self,
        alloc: Global,
        key: &str,
        value: &Value,
        limits: Limits,
    ) -> Result<u32, LoadError>
        ensures { Gives (λ n. n) result
            (integer_of limits (below self.entry.path.now key.now) (view value.now)) }
    {
        match value.as_integer() {
            Some(number) => match within(number, limits) {
                Some(number) => Ok(number),
                None => refused(alloc, self.path, key, Cause::OutOfRange),
            },
            None => refused(alloc, self.path, key, Cause::WrongType),
        }
    }

    fn natural(self, alloc: Global, key: &str, value: &Value) -> Result<u64, LoadError>
        ensures number { Gives (λ n. n) result
            (natural_of (below self.entry.path.now key.now) (view value.now)) }
        ensures few { IfOk result (λ n. n < 2 ^ 63) }
    {
        match value.as_integer() {
            Some(number) => match natural(number) {
                Some(number) => Ok(number),
                None => refused(alloc, self.path, key, Cause::OutOfRange),
            },
            None => refused(alloc, self.path, key, Cause::WrongType),
        }
    }

    #[tactic(auto, using(crate::proofs::Counts::count_of_view))]
    fn elements_in(
        self,
        alloc: Global,
        key: &str,
        value: &'a Value,
        most: usize,
    ) -> Result<&'a [Value], LoadError>
        ensures { Gives (λ values. items_view values.now) result
            (elements_of most (below self.entry.path.now key.now) (view value.now)) }
    {
        match value.as_array() {
            Some(values) => {
                if values.len() > most {
                    return refused(alloc, self.path, key, Cause::TooMany);
                }
                Ok(values.as_slice())
            }
            None => refused(alloc, self.path, key, Cause::WrongType),
        }
    }
}

/// The number, if it is within the limits.
fn within(number: i64, limits: Limits) -> Option<u32>
    ensures { result ≡ within limits number }
{
    if number < i64::from(limits.least) || i64::from(limits.most) < number {
        return None;
    }
    Some(number as u32)
}

/// The number, if it isn't below 0.
fn natural(number: i64) -> Option<u64>
    ensures number { result ≡ natural number }
    ensures few { IfSome result (λ n. n < 2 ^ 63) }
{
    if number < 0 {
        return None;
    }
    Some(number as u64)
}
