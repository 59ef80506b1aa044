//! Bytes, which contracts see as a list.

ghost use Rattle.std.specs.Prelude.{◌≡◌};

use std::alloc::Allocator;
use std::marker::Model;

/// The bytes of a name or a value, in memory of their own. Contracts see them as a list.
#[derive(Drop)]
pub struct ByteList<A: Allocator> {
    bytes: Vec<u8, A>,
}

impl<A: Allocator> Model for ByteList<A> {
    ghost use Rattle.std.specs.Prelude.{ℕ, List};

    ghost Value = { List ℕ };

    ghost view = { λ l. l.bytes.items };
}

impl<A: Allocator> ByteList<A> {
    /// Creates a list of these bytes. Takes no memory.
    pub fn of(bytes: Vec<u8, A>) -> ByteList<A>
        ensures { result ≡ bytes.items }
    {
        ByteList { bytes }
    }

    /// Returns the bytes.
    pub fn items(&self) -> &[u8]
        ensures { result.now ≡ self.now }
    {
        self.bytes.as_slice()
    }

    /// Returns the bytes as a `Vec`. Takes no memory.
    pub fn into_vec(self) -> Vec<u8, A>
        ensures { result.items ≡ self }
    {
        let ByteList { bytes } = self;
        bytes
    }
}
