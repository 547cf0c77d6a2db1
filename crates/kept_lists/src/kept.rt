ghost use Rattle.std.specs.Prelude.{◌≡◌, ◌++◌, ◌∷◌, ◌≤◌, [], is_some, IfSome, OnSome, OnOk, OnErr, length};
ghost use Rattle.drinfeld_mod.specs.Module.{IsModule, constant_of};
ghost use Rattle.hom_space.specs.Full.{IsFullList};
ghost use Rattle.kept_lists.specs.Kept.{IsKeptList, AreFullLists};
ghost use Rattle.kept_lists.specs.Pairs.{is_pair, has_pair, newest, pairs_of};

use drinfeld_mod::Module;
use ore_poly::Ore;
use ring_core::lists::equal_lists;
use ring_core::{E, FrobField, NoMemory};
use sqlite_items::Items;
use std::alloc::Global;
use std::marker::Model;

/// How many lists are kept at most.
const MOST_LISTS: usize = 8;

/// The full list of the homomorphisms from `source` to `target`.
#[derive(Drop)]
pub struct KeptList<C> {
    /// The module from which the homomorphisms go.
    pub source: Module<C>,
    /// The module to which they go.
    pub target: Module<C>,
    /// The members of the full list, by rising leads.
    pub members: Items<Ore<C>>,
}

/// The full lists of at most 8 pairs of modules, which contracts see as a list, the oldest first.
#[derive(Drop)]
pub struct KeptLists<C> {
    lists: Vec<KeptList<C>>,
}

impl<C> Model for KeptLists<C> {
    ghost use Rattle.std.specs.Prelude.{List};
    ghost use Rattle.kept_lists.specs.declared.kept.KeptList.{KeptList as Kept};

    ghost Value = { List (Kept C) };

    ghost view = { λ k. k.lists.items };

    ghost use Rattle.std.specs.Prelude.{◌≤◌, length};

    ghost invariant = { λ k. length k.lists.items ≤ 8 };
}

impl<C: Copy> KeptLists<C> {
    /// No lists. Takes no memory.
    pub fn new(alloc: Global) -> KeptLists<C>
        ensures { result ≡ [] }
    {
        KeptLists {
            lists: Vec::new(alloc),
        }
    }

    /// How many lists are kept, which is at most 8.
    pub fn len(&self) -> usize
        ensures value { result ≡ length self.now }
        ensures few { result ≤ 8 }
    {
        self.lists.len()
    }

    /// Takes the room for one more list, so that `keep` needs no more; that it then takes none is told by no clause. The
    /// only refusal is want of memory; the lists are as before in any case.
    pub fn room(&mut self) -> Result<(), NoMemory>
        ensures { self.new ≡ self.old }
    {
        self.lists.reserve(1)?;
        Ok(())
    }

    /// Keeps one more list, as the newest; where that makes nine, the oldest goes. The only refusal is want of memory;
    /// then the lists are as before.
    pub fn keep(&mut self, list: KeptList<C>) -> Result<(), NoMemory>
        ensures ok { OnOk result (self.new ≡ newest (self.old ++ list ∷ [])) }
        ensures same { OnErr result (self.new ≡ self.old) }
    {
        self.lists.push(list)?;
        if self.lists.len() > MOST_LISTS {
            self.lists.remove(0);
        }
        Ok(())
    }
}

/// Whether the list is that of the two modules.
fn is_of<K: FrobField>(k: &K, list: &KeptList<E<K>>, phi: &Module<E<K>>, psi: &Module<E<K>>) -> bool
    requires kept { IsKeptList (K.ops k.now) (K.Base.ops (K.base_of k.now)) (K.frob_ops k.now) list.now }
    requires source { IsModule (K.ops k.now) phi.now }
    requires target { IsModule (K.ops k.now) psi.now }
    ensures { result ≡ is_pair (K.ops k.now) phi.now psi.now (list.now.source, list.now.target) }
{
    equal_lists(k, list.source.as_slice(), phi.as_slice())
        && equal_lists(k, list.target.as_slice(), psi.as_slice())
}

/// The members of the full list of the homomorphisms from `phi` to `psi`, None exactly where it isn't kept. Takes no
/// memory.
pub fn find<'a, K: FrobField>(
    k: &K,
    kept: &'a KeptLists<E<K>>,
    phi: &Module<E<K>>,
    psi: &Module<E<K>>,
) -> Option<&'a [Ore<E<K>>]>
    requires full { AreFullLists (K.ops k.now) (K.Base.ops (K.base_of k.now)) (K.frob_ops k.now) kept.now }
    requires source { IsModule (K.ops k.now) phi.now }
    requires target { IsModule (K.ops k.now) psi.now }
    ensures kept { is_some result ≡ has_pair (K.ops k.now) phi.now psi.now (pairs_of kept.now) }
    ensures full { IfSome result (λ list. IsFullList (K.ops k.now) (K.Base.ops (K.base_of k.now)) (K.frob_ops k.now) phi.now psi.now list.now) }
    ensures constants { OnSome result (constant_of (K.ops k.now) phi.now ≡ constant_of (K.ops k.now) psi.now) }
{
    for list in &kept.lists {
        if is_of(k, list, phi, psi) {
            return Some(list.members.as_slice());
        }
    }
    None
}
