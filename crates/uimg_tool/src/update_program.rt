//! Updates a FIT image.

ghost use Rattle.std.specs.Prelude.{◌≡◌, IsTrue, false};
ghost use Rattle.uimg_tool.specs.{Complaints.Ends, OldMakings.UpdatesFor, SourceStatuses.update_status, TreesMade.{KeepsUpdated, placed_by, update_time}};
ghost use Rattle.uimg_world.specs.Deeds.{changes};

use crate::complaints::Complaints;
use crate::old_files::tell_end;
use crate::request_fault::{FAILED, REFUSED, RequestFault};
use crate::tree_program::{TreeRequest, write_image};
use std::io::Write;
use uimg_base::{MemFiles, Room};
use uimg_compat::UpdateRequest;
use uimg_engine::Fault;
use uimg_fit_base::{AlignedPlacement, Placement};
use uimg_fit_updating::{UpdateFault, Updated, update};
use uimg_printing::Printed;
use uimg_world::{MakingWorld, World};

/// Makes the new image beside its name, which it gets when it is complete.
pub(crate) fn update_image<'p, D: MakingWorld<'p>, W: Write, V: Write>(
    world: &mut D,
    request: &UpdateRequest<'p>,
    out: &mut W,
    complaints: &mut Complaints<'_, V>,
) -> u8
    ensures ends { Ends result complaints.old.count complaints.new.count }
    ensures made { UpdatesFor request.now.image.now result (D.trace world.old) (D.trace world.new) }
    ensures kept { IsTrue (D.map world.old).honest → result ≡ 0 →
        KeepsUpdated D.NewShelf.Kept.device request.now (D.map world.old) }
{
    let alloc = world.alloc();
    let Ok(mut source) = world.open(request.image) else {
        return complaints.tell_unread(world, request.image);
    };
    match update(alloc, &mut source, &mut Room::new(alloc), time_of(request)) {
        Ok(updated) => {
            let making = tree_request(request, &updated);
            let files = &mut MemFiles::new(&[]);
            write_image(world, making, &updated.tree, files, out, complaints)
        }
        Err(fault) => tell_fault(world, request.image, fault, complaints),
    }
}

fn time_of(request: &UpdateRequest<'_>) -> Option<u32>
    ensures { result ≡ update_time request.now }
{
    if request.sets_time {
        Some(request.manner.time)
    } else {
        None
    }
}

fn tree_request<'a, 'p>(request: &UpdateRequest<'p>, updated: &'a Updated) -> TreeRequest<'a, 'p>
where
    'p: 'a,
    ensures made { (result.source ≡ request.now.image) × (result.image ≡ request.now.image) }
    ensures placed { result.placement ≡ placed_by request.now updated.now.roomy_size }
    ensures beside { result.in_place ≡ false }
    ensures quiet { result.is_quiet ≡ request.now.is_quiet }
    ensures reserved { result.reservations.now ≡ updated.now.reservations.items }
{
    TreeRequest {
        source: request.image,
        image: request.image,
        in_place: false,
        placement: placed_by(request, updated.roomy_size),
        reservations: updated.reservations.as_slice(),
        manner: request.manner,
        is_quiet: request.is_quiet,
    }
}

// A blob with payloads after it has no free room.
fn placed_by(request: &UpdateRequest<'_>, size: u32) -> AlignedPlacement
    ensures { result ≡ placed_by request.now size }
{
    match request.placement {
        Placement::Inside => AlignedPlacement::Inside { least: size },
        Placement::After => AlignedPlacement::After {
            align: request.manner.align,
        },
        Placement::At(position) => AlignedPlacement::At {
            position,
            align: request.manner.align,
        },
    }
}

fn tell_fault<D: World, V: Write>(
    world: &mut D,
    image: &str,
    fault: UpdateFault,
    complaints: &mut Complaints<'_, V>,
) -> u8
    ensures status { result ≡ update_status fault }
    ensures ends { Ends result complaints.old.count complaints.new.count }
    ensures kept { changes (D.trace world.new) ≡ changes (D.trace world.old) }
{
    match fault {
        UpdateFault::Fit(fault) => {
            let end = Err(RequestFault::Stopped(Fault::from(fault)));
            tell_end(world, &end, image, complaints)
        }
        UpdateFault::OutOfMemory => complaints.tell_no_memory(),
        fault => {
            let status = if fault == UpdateFault::Changed {
                FAILED
            } else {
                REFUSED
            };
            let path = Printed(image.as_bytes());
            complaints.tell(&format_args!("{path}: {fault}"), status)
        }
    }
}
