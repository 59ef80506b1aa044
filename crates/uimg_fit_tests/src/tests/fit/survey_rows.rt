//! Surveys of images.

use super::super::answers::is_said;
use super::images::image;
use std::alloc::{AllocError, Global};
use std::test::Fail;
use uimg_base::{FuseSource, MemSource, Room, Source};
use uimg_fit_checking::{SurveyFault, survey};
use uimg_fit_reading::read_tree;

// Returns the number of images, of hash nodes of the first, and of configurations.
fn counts<S: Source>(alloc: Global, source: &mut S) -> Result<(usize, usize, usize), SurveyFault> {
    let mut room = Room::new(alloc);
    let blob = read_tree(source, &mut room)?;
    let facts = survey(alloc, &blob, &room)?;
    let hashes = match facts.images.as_slice().first() {
        Some(image) => image.hashes.len(),
        None => 0,
    };
    Ok((facts.images.len(), hashes, facts.configurations.len()))
}

fn answer<S: Source>(alloc: Global, source: &mut S) -> Result<String, AllocError> {
    match counts(alloc, source) {
        Ok((images, hashes, configurations)) => {
            format!(in alloc; "{images}, {hashes}, {configurations}")
        }
        Err(fault) => format!(in alloc; "{fault}"),
    }
}

// Named images, and their survey: the first two are as dtc and mkimage make them.
const ROWS: [(&str, &str); 6] = [
    ("four-hash-fit", "1, 4, 1"),
    ("five-hash-fit", "1, 5, 1"),
    ("lists", "1, 0, 1"),
    ("words", "2, 7, 0"),
    ("bare", "F1 no images"),
    ("short", "B1 too short at 0"),
];

#[test]
fn survey_rows(rt: HostRuntime) -> Result<(), Fail> {
    let alloc = rt.alloc();
    for (name, wanted) in &ROWS {
        let fit = image(alloc, name, 0, 0)?;
        let found = answer(alloc, &mut MemSource::new(&fit));
        is_said(&rt, found, wanted, name, 0);
    }
    Ok(())
}

// A source that answers some calls: the whole survey, or a failed read.
#[test]
fn surveys_whose_reads_fail(rt: HostRuntime) -> Result<(), Fail> {
    let alloc = rt.alloc();
    let fit = image(alloc, "four-hash-fit", 0, 0)?;
    let mut whole = false;
    for calls in 0..256u64 {
        let mut source = FuseSource::new(MemSource::new(&fit), calls);
        let is_whole = counts(alloc, &mut source).is_ok();
        assert!(rt; is_whole || !whole, "{calls} calls");
        whole |= is_whole;
    }
    assert!(rt; whole);
    Ok(())
}
