//! All the memory of an engine: a window, and a list of entries.

ghost use Rattle.std.specs.Prelude.{◌≡◌, ◌+◌, ◌-◌, ◌^◌, ◌<◌, min, max, [], ◌∷◌, ◌++◌, length, is_ok, is_err, if◌then◌else◌, Some, slice_get, slice_set};
ghost use Rattle.uimg_base.specs.{Device.RisesIf, Held.held_bytes};

use std::alloc::{AllocError, Allocator};
use std::marker::Model;

/// The size in bytes of a room's window, through which payloads go.
pub const WINDOW: usize = 8192;

/// The words of an entry.
pub type Entry = [u64; 16];

/// All the memory of an engine: a window of 8192 bytes, and a list of entries of 128 bytes.
///
/// Contracts see it as `Held`: its entries, the most bytes that it ever held, and how often it
/// refused to grow. It takes no memory for more entries than it has held at once.
#[derive(Drop)]
pub struct Room<A: Allocator> {
    window: [u8; WINDOW],
    entries: Vec<Entry, A>,
    peak: u128,
    refused: u64,
}

impl<A: Allocator> Model for Room<A> {
    ghost use Rattle.std.specs.{Prelude.◌≤◌, Vec.vec_capacity};
    ghost use Rattle.uimg_base.specs.Held.{Held, held_bytes};

    ghost Value = { Held };

    ghost view = { λ r. record { entries = r.entries.items; peak = r.peak; refused = r.refused } };

    ghost invariant = { λ r. held_bytes (vec_capacity r.entries) ≤ r.peak };
}

impl<A: Allocator> Room<A> {
    ghost use Rattle.std.specs.Borrow.{sem};
    ghost use Rattle.uimg_base.specs.Window.{LendsWindow};

    /// Creates a room with no entries. Takes no memory from the allocator yet.
    pub fn new(alloc: A) -> Room<A>
        ensures { result ≡ record { entries = []; peak = 8192; refused = 0 } }
    {
        Room {
            window: [0; WINDOW],
            entries: Vec::new(alloc),
            peak: WINDOW as u128,
            refused: 0,
        }
    }

    /// Returns the window, to write to. Nothing else of the room changes.
    pub fn window(&mut self) -> &mut [u8; WINDOW]
        ensures* { sem 𝓛 (LendsWindow A.row A.Allocator self.entry result) }
    {
        &mut self.window
    }

    /// Drops all entries. Keeps their memory for the next ones.
    pub fn clear(&mut self)
        ensures { self.new ≡ record self.old { entries = [] } }
    {
        self.entries.clear();
    }

    /// Returns the number of entries.
    pub fn count(&self) -> usize
        ensures { result ≡ length self.now.entries }
    {
        self.entries.len()
    }

    /// Returns the bytes held: the window's, and 128 for each entry.
    pub fn held(&self) -> u128
        ensures { result ≡ held_bytes (length self.now.entries) }
    {
        WINDOW as u128 + 128 * self.entries.len() as u128
    }

    /// Returns the most bytes ever held.
    pub fn peak(&self) -> u128
        ensures { result ≡ self.now.peak }
    {
        self.peak
    }

    /// Appends an entry, taking memory for just that one.
    ///
    /// Returns `AllocError` if the memory was refused. Then the entries are unchanged, and the
    /// count of refusals rose by 1, or was at its greatest value.
    pub fn add(&mut self, entry: Entry) -> Result<(), AllocError>
        ensures entries { self.new.entries ≡ (if is_ok result then self.old.entries ++ entry ∷ []
            else self.old.entries) }
        ensures peak { self.new.peak ≡ (if is_ok result
            then max self.old.peak (held_bytes (length self.old.entries + 1)) else self.old.peak) }
        ensures refused { RisesIf (is_err result) self.old.refused self.new.refused }
        ensures counted { self.new.refused ≡ (if is_err result then min (self.old.refused + 1)
            (2 ^ 64 - 1) else self.old.refused) }
    {
        if self.entries.reserve_exact(1).is_err() {
            self.refused = self.refused.saturating_add(1);
            return Err(AllocError);
        }
        self.entries.push_reserved(entry);
        self.peak = u128::max(self.peak, WINDOW as u128 + 128 * self.entries.len() as u128);
        Ok(())
    }

    /// Returns the entry of a number from 0, below `count`.
    pub fn entry(&self, number: usize) -> Entry
        requires { number < length self.now.entries }
        ensures { slice_get self.now.entries number ≡ Some result }
    {
        self.entries[number]
    }

    /// Replaces the entry of a number from 0, below `count`.
    pub fn set(&mut self, number: usize, entry: Entry)
        requires { number < length self.old.entries }
        ensures { self.new ≡ record self.old { entries = slice_set self.old.entries number entry } }
    {
        self.entries[number] = entry;
    }
}
