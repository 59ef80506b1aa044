//! Rooms whose memory is refused.

use super::steps::{cut, number};
use linked_list_allocator::LocalHeap;
use std::alloc::Allocator;
use std::process::Abort;
use std::test::Fail;
use uimg_base::Room;

// The name, the size of the heap in bytes, and the steps. An entry is named by the number in each
// of its words. A heap of 1024 bytes has room for three entries, as each takes memory for itself.
const ROOMS: [(&str, usize, &str); 4] = [
    (
        "no entry",
        1024,
        "count 0|held 8192|clear|count 0|held 8192",
    ),
    (
        "entries are kept",
        4096,
        "add 1|add 2|count 2|held 8448|set 0 3|entry 0 3|entry 1 2|clear|count 0|held 8192",
    ),
    (
        "a refused entry leaves the others",
        1024,
        "add 0|add 1|add 2|refuse 3|count 3|entry 0 0|entry 1 1|entry 2 2|held 8576",
    ),
    (
        "cleared entries leave their memory",
        1024,
        "add 0|add 1|add 2|clear|add 4|add 5|add 6|refuse 7|entry 0 4|entry 1 5|entry 2 6|count 3",
    ),
];

fn is_entry<A: Allocator>(room: &Room<A>, place: u64, value: u64) -> bool {
    let place = place as usize;
    place < room.count() && room.entry(place) == [value; 16]
}

fn sets<A: Allocator>(room: &mut Room<A>, place: u64, value: u64) -> bool {
    let place = place as usize;
    if place >= room.count() {
        return false;
    }
    room.set(place, [value; 16]);
    true
}

fn clears<A: Allocator>(room: &mut Room<A>) -> bool {
    room.clear();
    true
}

fn room_step<A: Allocator>(room: &mut Room<A>, step: &str) -> bool {
    let (word, rest) = cut(step);
    let (place, value) = cut(rest);
    match word {
        "add" => room.add([number(rest); 16]).is_ok(),
        "refuse" => room.add([number(rest); 16]).is_err(),
        "count" => room.count() as u64 == number(rest),
        "held" => room.held() == number(rest) as u128,
        "entry" => is_entry(room, number(place), number(value)),
        "set" => sets(room, number(place), number(value)),
        _ => word == "clear" && clears(room),
    }
}

fn plays<R: Abort, A: Allocator>(rt: &R, name: &str, mut room: Room<A>, script: &str) {
    for step in script.split('|') {
        assert!(rt; room_step(&mut room, step), "{name}: {step}");
    }
}

#[test]
fn rooms(rt: HostRuntime) -> Result<(), Fail> {
    for (name, bytes, script) in &ROOMS {
        let heap = LocalHeap::new(rt.alloc(), *bytes)?;
        plays(&rt, name, Room::new(&heap), script);
    }
    Ok(())
}

// A cleared room keeps its memory: of a heap for three entries another room gets fewer.
#[test]
fn a_cleared_room_keeps_its_memory(rt: HostRuntime) -> Result<(), Fail> {
    let heap = LocalHeap::new(rt.alloc(), 1024)?;
    let mut room = Room::new(&heap);
    let mut other = Room::new(&heap);
    for value in 0..3u64 {
        assert!(rt; room.add([value; 16]).is_ok());
    }
    room.clear();
    for value in 0..2u64 {
        assert!(rt; other.add([value; 16]).is_ok());
    }
    assert!(rt; other.add([2; 16]).is_err());
    Ok(())
}
