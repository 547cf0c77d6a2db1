ghost use Rattle.std.specs.Prelude.{◌≡◌, ◌++◌, ◌∷◌, [], None, IfOk, OnOk, OnErr, option_map};
ghost use Rattle.statement_operands.specs.Names.{value_of};

use answer::Value;
use indexmap::IndexMap;
use ring_core::NoMemory;
use script_lang::Name;
use std::alloc::Global;
use std::marker::Model;

/// The names of a session with their values, which contracts see as pairs in order of definition.
#[derive(Drop)]
pub struct Names {
    table: IndexMap<Vec<u8>, Value>,
}

impl Model for Names {
    ghost use Rattle.std.specs.Prelude.{ℕ, List, map};
    ghost use Rattle.answer.specs.declared.Value.{Value as Kept};

    ghost Value = { List (List ℕ × Kept) };

    ghost view = { λ n. map (λ e. (e.0.items, e.1)) n.table.entries };
}

impl Names {
    /// No names.
    pub fn new(alloc: Global) -> Names
        ensures { result ≡ [] }
    {
        Names {
            table: IndexMap::new(alloc),
        }
    }

    /// The value of a name.
    pub fn get(&self, name: &Name) -> Option<&Value>
        ensures { option_map (λ v. v.now) result ≡ value_of self.now name.now.bytes }
    {
        self.table.get(name.bytes.as_slice())
    }

    /// The bytes of a new name, and room for it.
    pub fn room(&mut self, alloc: Global, name: &Name) -> Result<Vec<u8>, NoMemory>
        ensures key { IfOk result (λ key. key.items ≡ name.now.bytes) }
        ensures same { self.new ≡ self.old }
    {
        self.table.reserve(1)?;
        Ok(Vec::from_slice(alloc, name.bytes.as_slice())?)
    }

    /// Adds a name that isn't there.
    pub fn define(&mut self, name: Vec<u8>, value: Value) -> Result<(), NoMemory>
        requires { value_of self.old name.items ≡ None }
        ensures ok { OnOk result (self.new ≡ self.old ++ (name.items, value) ∷ []) }
        ensures err { OnErr result (self.new ≡ self.old) }
    {
        self.table.insert(name, value)?;
        Ok(())
    }
}
