//! Properties, which contracts see as a list.

ghost use Rattle.std.specs.Prelude.{◌≡◌, map};
ghost use Rattle.uimg_blob_writing.specs.Properties.{property};

use crate::byte_list::ByteList;
use std::alloc::Allocator;
use std::marker::Model;

/// The value of a property.
#[derive(Drop)]
pub enum Value<A: Allocator> {
    /// These bytes.
    Bytes(ByteList<A>),
    /// The bytes of the file with this name and size. They stay in the file until the tree is
    /// written.
    File { name: ByteList<A>, size: u64 },
}

/// A property: name and value.
#[derive(Drop)]
pub struct Prop<A: Allocator> {
    pub name: ByteList<A>,
    pub value: Value<A>,
}

/// The properties of a node, in order. Contracts see them as a list of names and values.
#[derive(Drop)]
pub struct Props<A: Allocator> {
    props: Vec<Prop<A>, A>,
}

impl<A: Allocator> Model for Props<A> {
    ghost use Rattle.std.specs.Prelude.{List, map};
    ghost use Rattle.uimg_blob_reading.specs.Plain.{NamedOf};
    ghost use Rattle.uimg_blob_writing.specs.Content.{Content};

    ghost Value = { List (NamedOf Content) };

    ghost use Rattle.uimg_blob_writing.specs.Properties.{property};

    ghost view = { λ l. map property l.props.items };
}

impl<A: Allocator> Props<A> {
    /// Creates a list of these properties. Takes no memory, and gives back what the `Vec` has spare.
    pub fn of(props: Vec<Prop<A>, A>) -> Props<A>
        ensures { result ≡ map property props.items }
    {
        let mut props = props;
        props.shrink_to_fit();
        Props { props }
    }

    /// Returns the properties.
    pub fn items(&self) -> &[Prop<A>]
        ensures { map property result.now ≡ self.now }
    {
        self.props.as_slice()
    }

    /// Returns the properties as a `Vec`. Takes no memory.
    pub fn into_vec(self) -> Vec<Prop<A>, A>
        ensures { map property result.items ≡ self }
    {
        let Props { props } = self;
        props
    }
}
