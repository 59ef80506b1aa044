//! Parts that are unpacked into memory.

ghost use Rattle.std.specs.Prelude.{◌≡◌, ◌++◌, [], true, map, not, IsOk, IfOk};
ghost use Rattle.uimg_legacy.specs.MemParts.{mem_part, parts_if};

use crate::unpacking::part_taker::PartTaker;
use std::alloc::Allocator;
use uimg_base::PutFault;

/// A part in memory.
#[derive(Drop)]
pub struct MemPart<A: Allocator> {
    /// Its number.
    pub number: u32,
    /// Its bytes.
    pub bytes: Vec<u8, A>,
}

/// A taker in memory, of the parts of one image. It refuses a part if memory is refused, or if it
/// already keeps parts.
#[derive(Drop)]
pub struct MemParts<A: Allocator + Copy> {
    alloc: A,
    parts: Vec<MemPart<A>, A>,
    is_kept: bool,
}

impl<A: Allocator + Copy> MemParts<A> {
    /// Returns a taker without parts.
    pub fn new(alloc: A) -> MemParts<A>
        ensures held { ⟦<MemParts<A> as PartTaker>⟧.held result ≡ [] }
        ensures kept { ⟦<MemParts<A> as PartTaker>⟧.kept result ≡ [] }
    {
        MemParts {
            alloc,
            parts: Vec::new(alloc),
            is_kept: false,
        }
    }

    /// Returns the parts that it keeps.
    pub fn kept(&self) -> &[MemPart<A>]
        ensures { map mem_part result.now ≡ ⟦<MemParts<A> as PartTaker>⟧.kept self.now }
    {
        if self.is_kept {
            self.parts.as_slice()
        } else {
            &[]
        }
    }
}

impl<A: Allocator + Copy> PartTaker for MemParts<A> {
    type Shelf = Vec<u8, A>;

    ghost honest = { true };

    ghost held = { λ t. parts_if (not t.is_kept) t.parts.items };

    ghost kept = { λ t. parts_if t.is_kept t.parts.items };

    fn claim(&mut self, _number: u32) -> Result<(), PutFault>
        ensures ok { IsOk result }
        ensures same { self.new ≡ self.old }
    {
        Ok(())
    }

    fn shelf(&mut self, _number: u32) -> Result<Vec<u8, A>, PutFault>
        ensures ok { IsOk result }
        ensures same { self.new ≡ self.old }
        ensures empty { IfOk result (λ shelf. shelf.items ≡ []) }
    {
        Ok(Vec::new(self.alloc))
    }

    fn hold(&mut self, number: u32, shelf: Vec<u8, A>) -> Result<(), PutFault> {
        if self.is_kept {
            return Err(PutFault);
        }
        let part = MemPart {
            number,
            bytes: shelf,
        };
        self.parts.push(part).map_err(|_refused| PutFault)
    }

    fn keep(&mut self, _dcrc: u32) -> Result<(), PutFault>
        ensures ok { IsOk result }
        ensures kept { ⟦<MemParts<A> as PartTaker>⟧.kept self.new
            ≡ ⟦<MemParts<A> as PartTaker>⟧.kept self.old
            ++ ⟦<MemParts<A> as PartTaker>⟧.held self.old }
    {
        self.is_kept = true;
        Ok(())
    }

    fn refuse(&mut self) -> Result<(), PutFault>
        ensures ok { IsOk result }
        ensures same { self.new ≡ self.old }
    {
        Ok(())
    }
}
