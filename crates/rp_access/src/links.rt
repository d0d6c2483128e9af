//! Links between numbers, as a list for each number.
ghost use Rattle.std.specs.Prelude.{◌≡◌, ◌<◌, length, IfOk, OnOk, OnErr, List, ℕ, []};
ghost use Rattle.std.specs.Prelude.{replicate};
ghost use Rattle.std.specs.List.{AllByRecursion};
ghost use Rattle.rp_access.specs.Chain.{AreJoined, AreLinks, IsBelow, linked_to};
ghost use Rattle.rp_access.specs.Laws.{AreLinksOf};

use crate::neighbours::Neighbours;
use std::alloc::{AllocError, Global};
use std::marker::Model;

/// The numbers from 0 to below a count, and the list of the numbers that each is linked to. Links go both ways.
#[derive(Drop)]
pub struct Links {
    lists: Vec<Neighbours>,
}

impl Model for Links {
    ghost use Rattle.std.specs.Prelude.{List, ℕ};
    ghost use Rattle.rp_access.specs.Chain.{AreLinks};

    ghost Value = { List (List ℕ) };

    ghost view = { λ s. s.lists.items };

    ghost invariant = { λ s. AreLinks s.lists.items };
}

impl Links {
    /// Returns the numbers from 0 to below `n` without links.
    ///
    /// # Errors
    ///
    /// `AllocError` for want of memory.
    pub fn new(alloc: Global, n: u32) -> Result<Links, AllocError>
        ensures { IfOk result (λ g. g ≡ replicate n []) }
    {
        let mut lists = Vec::new(alloc);
        for _ in 0..n {
            lists.push(Neighbours::new(alloc))?;
        }
        Ok(Links { lists })
    }

    /// Returns the numbers from 0 to below `n`, with a link between the two of each of `pairs`. All numbers in `pairs`
    /// are below `n`.
    ///
    /// # Errors
    ///
    /// `AllocError` for want of memory.
    pub fn from_pairs(alloc: Global, n: u32, pairs: &[(u32, u32)]) -> Result<Links, AllocError>
        requires { AllByRecursion (IsBelow n) pairs.now }
        ensures count { IfOk result (λ g. length g ≡ n) }
        ensures links { IfOk result (λ g. AreLinksOf g pairs.now) }
    {
        let mut links = Links::new(alloc, n)?;
        for (first, second) in pairs {
            links.join(alloc, *first, *second)?;
        }
        Ok(links)
    }

    /// Links `a` and `b` to each other. Both are below the count of the numbers. After `AllocError` nothing has
    /// changed.
    pub fn join(&mut self, _alloc: Global, a: u32, b: u32) -> Result<(), AllocError>
        requires a_below { a < length self.old }
        requires b_below { b < length self.old }
        ensures ok { OnOk result (AreJoined self.old self.new a b) }
        ensures err { OnErr result (self.new ≡ self.old) }
    {
        self.lists[a as usize].push(b)?;
        match self.lists[b as usize].push(a) {
            Ok(()) => Ok(()),
            Err(error) => {
                let _ = self.lists[a as usize].pop();
                Err(error)
            }
        }
    }

    /// Returns the count of the numbers.
    pub(crate) fn count(&self) -> usize
        ensures count { result ≡ length self.now }
        ensures links { AreLinks self.now }
    {
        self.lists.len()
    }

    /// Returns the numbers that `i` is linked to.
    pub(crate) fn linked_to(&self, i: usize) -> &[u32]
        requires { i < length self.now }
        ensures value { result.now ≡ linked_to self.now i }
        ensures links { AreLinks self.now }
    {
        self.lists[i].numbers()
    }
}
