//! The values that are kept of a node, and their slots in its entry.

ghost use Rattle.uimg_blob_reading.specs.Kept.{IsSlot};

use crate::keys::Key;
use crate::roles::Role;

pub(crate) fn slot_of(role: Role, key: Key) -> Option<usize>
    ensures { IsSlot role key result }
{
    match role {
        Role::Root => root_slot(key),
        Role::Image => image_slot(key),
        Role::Hash => hash_slot(key),
        Role::Signature => signature_slot(key),
        Role::Configurations => configurations_slot(key),
        Role::Configuration => configuration_slot(key),
        Role::Images | Role::Other => None,
    }
}

fn root_slot(key: Key) -> Option<usize>
    ensures { IsSlot Role.Root key result }
{
    match key {
        Key::Description => Some(0),
        Key::Timestamp => Some(1),
        _ => None,
    }
}

fn image_slot(key: Key) -> Option<usize>
    ensures { IsSlot Role.Image key result }
{
    match key {
        Key::Description => Some(0),
        Key::Data => Some(1),
        Key::Kind => Some(2),
        Key::Arch => Some(3),
        Key::Os => Some(4),
        Key::Compression => Some(5),
        Key::Load => Some(6),
        Key::Entry => Some(7),
        Key::DataSize => Some(8),
        Key::DataOffset => Some(9),
        Key::DataPosition => Some(10),
        _ => None,
    }
}

fn hash_slot(key: Key) -> Option<usize>
    ensures { IsSlot Role.Hash key result }
{
    match key {
        Key::Algo => Some(0),
        Key::Value => Some(1),
        _ => None,
    }
}

fn signature_slot(key: Key) -> Option<usize>
    ensures { IsSlot Role.Signature key result }
{
    match key {
        Key::Algo => Some(0),
        Key::Value => Some(1),
        Key::KeyName => Some(2),
        Key::Required => Some(3),
        Key::Padding => Some(4),
        Key::Timestamp => Some(5),
        _ => None,
    }
}

fn configurations_slot(key: Key) -> Option<usize>
    ensures { IsSlot Role.Configurations key result }
{
    match key {
        Key::Default => Some(0),
        _ => None,
    }
}

fn configuration_slot(key: Key) -> Option<usize>
    ensures { IsSlot Role.Configuration key result }
{
    match key {
        Key::Description => Some(0),
        Key::Kernel => Some(1),
        Key::Ramdisk => Some(2),
        Key::Fdt => Some(3),
        Key::Loadables => Some(4),
        Key::Firmware => Some(5),
        Key::Fpga => Some(6),
        Key::Setup => Some(7),
        Key::Standalone => Some(8),
        Key::Script => Some(9),
        _ => None,
    }
}
