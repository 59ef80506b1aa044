//! The words of a source as they are collected.

use crate::bytes::after;
use crate::fault::Refusal;
use crate::quoted::next_byte;
use crate::stop::{Stop, at, out_of_memory};
use crate::tokens::{Piece, Token, Word};
use std::alloc::Allocator;

/// What is between a folder and the name of a file in it. The path is the same, and what follows
/// the last one is what the source calls the file.
pub(crate) const IN_FOLDER: &[u8] = b"./";

/// Which words may begin: dtc's start conditions.
#[derive(Clone, Copy, PartialEq)]
pub(crate) enum Mode {
    /// Before `/dts-v1/`.
    Start,
    /// Numbers.
    Values,
    /// Pairs of hexadecimal digits.
    Bytes,
    /// Names of nodes and properties.
    Names,
}

fn mode_after(mode: Mode, word: Word) -> Mode {
    match word {
        Word::Version | Word::Reserve | Word::Bits | Word::Name(_) => Mode::Values,
        Word::DeleteProperty | Word::DeleteNode | Word::OmitIfNoReference => Mode::Names,
        Word::Single(b'{' | b';') => Mode::Names,
        Word::Single(b'[') => Mode::Bytes,
        Word::Single(b']') if mode == Mode::Bytes => Mode::Values,
        _ => mode,
    }
}

/// The words of a source, their bytes, and the state of reading.
#[derive(Drop)]
pub(crate) struct Sheet<A: Allocator> {
    pub(crate) bytes: Vec<u8, A>,
    pub(crate) tokens: Vec<Token, A>,
    pub(crate) mode: Mode,
    /// How many files were included.
    pub(crate) includes: u8,
}

impl<A: Allocator + Copy> Sheet<A> {
    pub(crate) fn new(alloc: A) -> Sheet<A> {
        Sheet {
            bytes: Vec::new(alloc),
            tokens: Vec::new(alloc),
            mode: Mode::Start,
            includes: 0,
        }
    }

    pub(crate) fn add(&mut self, word: Word, left: usize) -> Result<(), Stop> {
        self.mode = mode_after(self.mode, word);
        match self.tokens.push(Token { word, left }) {
            Ok(()) => Ok(()),
            Err(_) => Err(out_of_memory(left)),
        }
    }

    pub(crate) fn keep(&mut self, bytes: &[u8], left: usize) -> Result<Piece, Stop> {
        let start = self.bytes.len();
        match self.bytes.extend_from_slice(bytes) {
            Ok(()) => Ok(Piece {
                start,
                end: self.bytes.len(),
            }),
            Err(_) => Err(out_of_memory(left)),
        }
    }

    fn keep_byte(&mut self, b: u8, left: usize) -> Result<(), Stop> {
        match self.bytes.push(b) {
            Ok(()) => Ok(()),
            Err(_) => Err(out_of_memory(left)),
        }
    }

    /// Copies a string without its escapes, given the text after its opening quote and how many
    /// bytes it has there.
    pub(crate) fn keep_text(
        &mut self,
        text: &[u8],
        length: usize,
        left: usize,
    ) -> Result<Piece, Stop> {
        let start = self.bytes.len();
        let mut place = 0;
        for _ in 0..length {
            if place < length {
                let Some((b, more)) = next_byte(after(text, place)) else {
                    return Err(at(Refusal::BadToken, left));
                };
                self.keep_byte(b, left)?;
                place = place.saturating_add(more);
            }
        }
        Ok(Piece {
            start,
            end: self.bytes.len(),
        })
    }

    /// A file's name from the root needs no folder.
    pub(crate) fn keep_path(
        &mut self,
        folder: Piece,
        name: &[u8],
        left: usize,
    ) -> Result<Piece, Stop> {
        let start = self.bytes.len();
        if name.first() != Some(&b'/') {
            for i in folder.start..folder.end {
                let b = match self.bytes.get(i) {
                    Some(b) => *b,
                    None => 0,
                };
                self.keep_byte(b, left)?;
            }
            if folder.start < folder.end {
                self.keep(IN_FOLDER, left)?;
            }
        }
        let end = self.keep(name, left)?.end;
        Ok(Piece { start, end })
    }
}
