//! How many payloads an image in memory has.

ghost use Rattle.std.specs.Prelude.{◌≡◌, ◌≢◌, ◌≤◌, false};
ghost use Rattle.uimg_requests.specs.declared.command.Form.TheVariants as form;
ghost use Rattle.uimg_checks.specs.Counting.{count_of};
ghost use Rattle.uimg_engine.specs.Headline.{is_fit};
ghost use Rattle.uimg_c.specs.Answers.{ReportsCount, table_most};

use crate::codes::{DONE, NO_MEMORY, fault_code};
use crate::peaks::peak_of;
use crate::reports::UimgCount;
use std::alloc::Global;
use uimg_base::Room;
use uimg_checks::count_in_memory;

pub(crate) fn payload_count(alloc: Global, image: &[u8], count: &mut UimgCount) -> u32
    ensures told { result ≢ 3 → ReportsCount (count_of (is_fit form.Guess image.now) image.now) count.new }
    ensures status { result ≡ count.new.status }
    ensures nothing { result ≢ 0 → count.new.count ≡ 0 }
    ensures no_fault { result ≡ 3 → (count.new.fault ≡ 0) × (count.new.place ≡ 0) }
    ensures legacy { is_fit form.Guess image.now ≡ false → result ≢ 3 }
    ensures peak { count.new.peak ≤ table_most form.Guess image.now }
{
    let mut room = Room::new(alloc);
    let (status, fault, place, payloads) = match count_in_memory(image, &mut room) {
        Ok(payloads) => (DONE, 0, 0, payloads),
        Err(fault) => match fault_code(fault) {
            Some(code) => (code.status, code.fault, code.place, 0),
            None => (NO_MEMORY, 0, 0, 0),
        },
    };
    *count = UimgCount {
        status,
        fault,
        place,
        count: payloads,
        peak: peak_of(&room),
    };
    status
}
