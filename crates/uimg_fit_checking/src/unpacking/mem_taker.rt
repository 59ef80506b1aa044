//! Payloads that are unpacked into memory.

ghost use Rattle.std.specs.Prelude.{◌≡◌, [], true, map, IsOk, IfOk};
ghost use Rattle.uimg_fit_checking.specs.MemTakes.{take_at};

use crate::unpacking::node_names::NodeName;
use crate::unpacking::taker::{Refusal, Taker, Vouched};
use std::alloc::Allocator;
use uimg_base::PutFault;

/// A payload that was unpacked into memory, or refused.
#[derive(Drop)]
pub enum MemTake<A: Allocator> {
    /// It is kept.
    Kept {
        /// The name of its image.
        name: NodeName,
        /// The payload.
        payload: Vec<u8, A>,
        /// What vouches for it.
        vouched: Option<Vouched>,
    },
    /// It is refused.
    Refused {
        /// The name of its image.
        name: NodeName,
        /// Why.
        refusal: Refusal,
    },
}

/// A taker in memory, which keeps all that it is given. It refuses only if memory was refused.
#[derive(Drop)]
pub struct MemTaker<A: Allocator + Copy> {
    alloc: A,
    takes: Vec<MemTake<A>, A>,
}

impl<A: Allocator + Copy> MemTaker<A> {
    /// Returns a taker that was given nothing.
    pub fn new(alloc: A) -> MemTaker<A>
        ensures { ⟦<MemTaker<A> as Taker>⟧.takes result ≡ [] }
    {
        MemTaker {
            alloc,
            takes: Vec::new(alloc),
        }
    }

    /// Returns what it was given.
    pub fn takes(&self) -> &[MemTake<A>]
        ensures { map take_at result.now ≡ ⟦<MemTaker<A> as Taker>⟧.takes self.now }
    {
        self.takes.as_slice()
    }
}

impl<A: Allocator + Copy> Taker for MemTaker<A> {
    type Shelf = Vec<u8, A>;

    ghost honest = { true };

    ghost takes = { λ t. map take_at t.takes.items };

    fn claim(&mut self, _name: &NodeName, _length: u64) -> Result<(), PutFault>
        ensures ok { IsOk result }
        ensures same { self.new ≡ self.old }
    {
        Ok(())
    }

    fn shelf(&mut self, _name: &NodeName) -> Result<Vec<u8, A>, PutFault>
        ensures ok { IsOk result }
        ensures same { self.new ≡ self.old }
        ensures empty { IfOk result (λ shelf. shelf.items ≡ []) }
    {
        Ok(Vec::new(self.alloc))
    }

    fn keep(
        &mut self,
        name: &NodeName,
        shelf: Vec<u8, A>,
        vouched: Option<Vouched>,
    ) -> Result<(), PutFault> {
        let take = MemTake::Kept {
            name: *name,
            payload: shelf,
            vouched,
        };
        self.takes.push(take).map_err(|_refused| PutFault)
    }

    fn refuse(
        &mut self,
        name: &NodeName,
        _shelf: Vec<u8, A>,
        refusal: Refusal,
    ) -> Result<(), PutFault> {
        let take = MemTake::Refused {
            name: *name,
            refusal,
        };
        self.takes.push(take).map_err(|_refused| PutFault)
    }
}
