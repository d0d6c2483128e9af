//! The breadth-first search for levels.
ghost use Rattle.std.specs.Prelude.{◌≡◌, ◌<◌, length, IfOk, OnOk};
ghost use Rattle.rp_access.specs.Chain.{AreLevels, PassesTests};
ghost use Rattle.rp_access.specs.Searching.{AreBelow, reach, started};

use crate::links::Links;
use std::alloc::{AllocError, Global};
use std::marker::Model;

/// The levels found so far, and the numbers that have a level, in the order in which they were reached.
#[derive(Drop)]
struct Search {
    levels: Vec<Option<u32>>,
    queue: Vec<u32>,
}

impl Model for Search {
    ghost use Rattle.rp_access.specs.Searching.{Search as Searched};

    ghost Value = { Searched };

    ghost view = { λ s. record { levels = s.levels.items; queue = s.queue.items } };
}

impl Search {
    /// Returns a search over `n` numbers that has reached `to` alone, with the level 0.
    fn new(alloc: Global, n: usize, to: u32) -> Result<Search, AllocError>
        requires { to < n }
        ensures { IfOk result (λ s. s ≡ started n to) }
    {
        let mut levels = vec![in alloc; None; n]?;
        levels[to as usize] = Some(0);
        let mut queue = Vec::new(alloc);
        queue.push(to)?;
        Ok(Search { levels, queue })
    }

    /// Gives `level` to each of `numbers` that has no level yet, and appends it to the queue.
    fn reach(&mut self, numbers: &[u32], level: u32) -> Result<(), AllocError>
        requires { AreBelow (length self.old.levels) numbers.now }
        ensures { OnOk result (self.new ≡ reach level numbers.now self.old) }
    {
        for j in numbers {
            if self.levels[*j as usize].is_none() {
                self.levels[*j as usize] = Some(level);
                self.queue.push(*j)?;
            }
        }
        Ok(())
    }
}

/// Returns the level of each number: the number of steps of the shortest chain from it to `to`; `None` iff there is no
/// chain. The list passes the four tests. The time is linear in the links: each number is visited once, in the order in
/// which it is reached.
///
/// # Errors
///
/// `AllocError` for want of memory.
pub fn levels(alloc: Global, g: &Links, to: u32) -> Result<Vec<Option<u32>>, AllocError>
    requires { to < length g.now }
    ensures found { IfOk result (λ v. AreLevels g.now to v.items) }
    ensures passes { IfOk result (λ v. PassesTests g.now to v.items) }
{
    let mut search = Search::new(alloc, g.count(), to)?;
    let mut next = 0;
    while next < search.queue.len() {
        let i = search.queue[next];
        if let Some(level) = search.levels[i as usize] {
            search.reach(g.linked_to(i as usize), level + 1)?;
        }
        next += 1;
    }
    Ok(search.levels)
}
