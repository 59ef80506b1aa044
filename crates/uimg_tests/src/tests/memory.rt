//! Images that are read and made in memory.
use super::images::image_named;
use super::listings::listing_named;
use super::makings::{FILES, command_named, time_of};
use super::runs::{action_named, shown, told};
use std::process::Abort;
use std::test::Fail;
use uimg_base::{Out, Room, Source};
use uimg_engine::{Command, Form, Manner, make_in_memory, run_in_memory};
use uimg_fit_base::WORD_ALIGNMENT;
use uimg_texts::Naming;

// The image, the action, its end, and what is written.
const ROWS: [(&str, &str, &str, &str); 6] = [
    (
        "abc-kernel",
        "verify",
        "done",
        "header crc32 ok\ndata crc32 ok\n",
    ),
    ("abc-kernel", "0", "done", "abc"),
    ("abc-kernel", "1", "L8 no such part", ""),
    ("four-hash-fit", "0", "done", "abc"),
    ("four-hash-fit", "1", "F4 no such image", ""),
    ("part-outside", "1", "L7 part outside", ""),
];

fn plays<R: AllocGlobal + Abort>(rt: &R, row: (&str, &str, &str, &str)) {
    let (name, action, end, text) = row;
    let image = image_named(rt.alloc(), name);
    let mut room = Room::new(rt.alloc());
    let command = Command {
        action: action_named(action),
        form: Form::Guess,
    };
    let (answer, written) = run_in_memory(rt.alloc(), Naming::Profile, &command, &image, &mut room);
    assert_eq!(rt; shown(&told(rt.alloc(), &answer)), end, "{name}: {action}");
    assert_eq!(rt; shown(&written), text, "{name}: {action}");
}

#[test]
fn images_in_memory(rt: HostRuntime) {
    for row in &ROWS {
        plays(&rt, *row);
    }
}

fn has_bytes<S: Source>(source: &mut S, bytes: &[u8]) -> bool {
    let mut held = [0; 760];
    let length = bytes.len();
    if length > 760 || source.size() != Ok(length as u64) {
        return false;
    }
    source.fill_at(0, &mut held[..length]).is_ok() && &held[..length] == bytes
}

fn makes<R: AllocGlobal + Abort>(rt: &R, name: &str) -> Result<(), Fail> {
    let command = command_named(rt.alloc(), name)?;
    let mut room = Room::new(rt.alloc());
    let mut out = Out::new(Vec::new(rt.alloc()));
    let made = make_in_memory(
        rt.alloc(),
        &command,
        Manner {
            time: time_of(name),
            naming: Naming::Profile,
            align: WORD_ALIGNMENT,
        },
        &FILES,
        &mut room,
        &mut out,
    );
    let Ok(mut kept) = made else {
        panic!(rt; "no image: {name}");
    };
    assert!(rt;
        has_bytes(&mut kept, &image_named(rt.alloc(), name)),
        "{name}"
    );
    assert!(rt;
        out.into_inner().as_slice() == listing_named(name).as_bytes(),
        "{name}"
    );
    Ok(())
}

#[test]
fn images_made_in_memory(rt: HostRuntime) -> Result<(), Fail> {
    for name in ["three-part-multi", "abc-kernel", "four-hash-fit"] {
        makes(&rt, name)?;
    }
    Ok(())
}
