//! Well formed and faulty blobs for tests of this crate and those above.

use std::alloc::{AllocError, Allocator};

/// The structure block of a blob, built token by token (Devicetree Specification, section 5.4).
/// Nothing is checked.
#[derive(Drop)]
pub struct Sample<A: Allocator> {
    structure: Vec<u8, A>,
}

fn low(count: usize) -> u32 {
    (count as u64 % 0x1_0000_0000) as u32
}

fn pad<A: Allocator>(bytes: &mut Vec<u8, A>) -> Result<(), AllocError> {
    let past = bytes.len() % 4;
    if past != 0 {
        bytes.extend_from_slice(&[0; 4][past..])?;
    }
    Ok(())
}

impl<A: Allocator> Sample<A> {
    /// Creates a structure block without tokens.
    pub fn new(alloc: A) -> Sample<A> {
        Sample {
            structure: Vec::new(alloc),
        }
    }

    /// Appends a word.
    pub fn word(&mut self, word: u32) -> Result<(), AllocError> {
        self.structure.extend_from_slice(&word.to_be_bytes())?;
        Ok(())
    }

    /// Appends FDT_BEGIN_NODE with a node's name.
    pub fn begin(&mut self, name: &[u8]) -> Result<(), AllocError> {
        self.word(1)?;
        self.structure.extend_from_slice(name)?;
        self.structure.push(0)?;
        pad(&mut self.structure)
    }

    /// Appends FDT_PROP with a value, and its name's offset in the strings block.
    pub fn prop(&mut self, name_offset: u32, value: &[u8]) -> Result<(), AllocError> {
        self.word(3)?;
        self.word(low(value.len()))?;
        self.word(name_offset)?;
        self.structure.extend_from_slice(value)?;
        pad(&mut self.structure)
    }

    /// Appends FDT_END_NODE.
    pub fn end_node(&mut self) -> Result<(), AllocError> {
        self.word(2)
    }

    /// Appends FDT_NOP.
    pub fn nop(&mut self) -> Result<(), AllocError> {
        self.word(4)
    }

    /// Returns the blob with these strings: header, empty reservation block, structure block at 56
    /// ended with FDT_END, strings block, and zeros up to a multiple of 4.
    pub fn finish(mut self, alloc: A, strings: &[u8]) -> Result<Vec<u8, A>, AllocError> {
        self.word(9)?;
        let structure = low(self.structure.len());
        let strings_at = 56 + structure as u64;
        let total = strings_at + low(strings.len()) as u64;
        let header = [
            0xd00d_feed,
            low(((total + 3) / 4 * 4) as usize),
            56,
            low(strings_at as usize),
            40,
            17,
            16,
            0,
            low(strings.len()),
            structure,
        ];
        let mut blob = Vec::new(alloc);
        for word in header {
            blob.extend_from_slice(&word.to_be_bytes())?;
        }
        blob.extend_from_slice(&[0; 16])?;
        blob.extend_from_slice(&self.structure)?;
        blob.extend_from_slice(strings)?;
        pad(&mut blob)?;
        Ok(blob)
    }
}
