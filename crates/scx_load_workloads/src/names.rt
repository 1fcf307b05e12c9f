//! The names of groups or tasks, as they are read.
ghost use Rattle.std.specs.Prelude.{◌≡◌, ◌<◌, ◌++◌, ◌∷◌, [], None, length, IfErr, IfSome, OnErr, OnOk};
ghost use Rattle.scx_load_files.specs.declared.fault.LoadError.TheVariants.{NoMemory};
ghost use Rattle.scx_load_workloads.specs.Reading.{index_of};
ghost use Rattle.scx_load_workloads.specs.KeptNames.{texts};

use indexmap::IndexSet;
use scx_load_files::LoadError;
use std::alloc::Global;
use std::marker::Model;

/// The names that were read so far, no two alike.
#[derive(Drop)]
pub struct Names {
    list: Vec<String>,
    /// Copies in the same order, among which a name is found by its hash.
    set: IndexSet<String>,
}

impl Model for Names {
    ghost use Rattle.std.specs.Prelude.{List, ℕ};
    ghost use Rattle.scx_load_workloads.specs.KeptNames.{names_of, AreNames};

    ghost Value = { List (List ℕ) };

    ghost view = { names_of };

    ghost invariant = { AreNames };
}

impl Names {
    pub(crate) fn none(alloc: Global) -> Names
        ensures { result ≡ [] }
    {
        Names {
            list: Vec::new(alloc),
            set: IndexSet::new(alloc),
        }
    }

    /// The number of the name, if it is one of these.
    pub(crate) fn index_of(&self, name: &str) -> Option<usize>
        ensures number { result ≡ index_of self.now name.now }
        ensures within { IfSome result (λ i. i < length self.now) }
    {
        place_of(&self.set, name)
    }

    /// Adds a name that isn't one of these.
    pub(crate) fn push(&mut self, alloc: Global, name: &str) -> Result<(), LoadError>
        requires { index_of self.old name.now ≡ None }
        ensures names { OnOk result (self.new ≡ self.old ++ name.now ∷ []) }
        ensures kept { OnErr result (self.new ≡ self.old) }
        ensures memory { IfErr result (λ e. e ≡ NoMemory) }
    {
        let text = String::from_str(alloc, name)?;
        self.list.reserve(1)?;
        insert(alloc, &mut self.set, name)?;
        self.list.push_reserved(text);
        Ok(())
    }

    pub(crate) fn into_list(self) -> Vec<String>
        ensures { texts result.items ≡ self }
    {
        let Names { list, set: _set } = self;
        list
    }
}

/// The place of the name in a set, if it is there.
#[tactic(auto, using(crate::proofs::Values::index_is))]
fn place_of(names: &IndexSet<String>, name: &str) -> Option<usize>
    ensures number { result ≡ index_of (texts names.now.keys) name.now }
    ensures within { IfSome result (λ i. i < length names.now.keys) }
{
    names.get_index_of(name)
}

/// Puts a name that isn't in a set last there.
fn insert(alloc: Global, names: &mut IndexSet<String>, name: &str) -> Result<(), LoadError>
    requires { index_of (texts names.old.keys) name.now ≡ None }
    ensures names { OnOk result
        (texts names.new.keys ≡ texts names.old.keys ++ name.now ∷ []) }
    ensures kept { OnErr result (names.new.keys ≡ names.old.keys) }
    ensures memory { IfErr result (λ e. e ≡ NoMemory) }
{
    let name = String::from_str(alloc, name)?;
    names.insert(name)?;
    Ok(())
}
