//! The nodes that the signature of a configuration covers.

ghost use Rattle.std.specs.Prelude.{◌≡◌, ◌+◌, ◌*◌, ◌<◌, ◌≤◌, ◌++◌, List, length, map, take, false, true, None, IfSome, MatchOption, IfOk, OnOk};
ghost use Rattle.std.specs.List.{All};
ghost use Rattle.uimg_base.specs.{Using.{Asks, Uses}};
ghost use Rattle.uimg_blob_reading.specs.{Places.read_place, Properties.places_of, Counts.nops_met};
ghost use Rattle.uimg_signing.specs.{Faults.{is_unread, Refuses}, Texts.is_cipher, Naming.{named, times, CanBeRead}};
ghost use Rattle.uimg_signing.specs.Hashed.{are_hashed};
ghost use Rattle.uimg_signing.specs.Listing.{OfNode, OfNodeRead, OfTable, OfTableRead, OfTreeRead, node_cost, listing_cost, many_refusal, nodes_refusal, listing_refusal, name_in, parent_times, listed_times, mark_if, marks_of, is_over, are_over, are_many};

use crate::apart::are_apart;
use crate::faults::SigningFault;
use crate::hashed::are_hashed;
use crate::naming::{has_long, times_at};
use crate::path_sizes::path_size;
use crate::texts::is_cipher;
use std::alloc::{Allocator, Global};
use uimg_base::{Room, Source};
use uimg_blob_reading::{Blob, PropertyPlace, Role, properties_of};

// The most listed nodes, as in U-Boot (IMAGE_MAX_HASHED_NODES).
const MOST_NODES: u128 = 100;

// The most bytes of their paths (FIT_MAX_HASH_PATH_BUF).
const MOST_BYTES: u128 = 4096;

// Reads the name of a node into the start of `to`. Returns its length.
pub(crate) fn read_name<S: Source, A: Allocator>(
    source: &mut S,
    blob: &Blob,
    room: &Room<A>,
    node: usize,
    to: &mut [u8; 256],
) -> Result<usize, SigningFault>
    requires node { node < length room.now.entries }
    requires within { blob.now.totalsize ≤ length (S.device source.old).bytes }
    ensures uses { Asks 255 (is_unread result) (S.device source.old)
        (S.device source.new) }
    ensures short { IfOk result (λ n. n ≤ 255) }
    ensures refused { OfNodeRead (S.device source.old) blob.now room.now.entries node (λ rows row.
        Refuses None result) }
    ensures told { OfNode (S.device source.old) blob.now room.now.entries node (λ rows row.
        IfOk result (λ n. take n to.new ≡ name_in (S.device source.old).bytes row)) }
{
    let span = blob.name(room, node);
    if span.length > 255 {
        return Err(SigningFault::Changed);
    }
    if span.place > blob.totalsize() as u64 {
        return Err(SigningFault::Changed);
    }
    let length = span.length as usize;
    if span.place + span.length > blob.totalsize() as u64 {
        return Err(SigningFault::Changed);
    }
    if source.fill_at(span.place, &mut to[..length]).is_err() {
        return Err(SigningFault::Read);
    }
    Ok(length)
}

// Returns how often the configuration with these properties names an image.
fn count_names<S: Source, A: Allocator>(
    source: &mut S,
    blob: &Blob,
    room: &mut Room<A>,
    places: &[PropertyPlace],
    image: usize,
) -> Result<u128, SigningFault>
    requires node { image < length room.old.entries }
    requires within { blob.now.totalsize ≤ length (S.device source.old).bytes }
    requires places { All (CanBeRead (length (S.device source.old).bytes)) places.now }
    ensures uses { Asks (255 + 8447 * length places.now) (is_unread result) (S.device source.old)
        (S.device source.new) }
    ensures room { room.new ≡ room.old }
    ensures refused { OfNodeRead (S.device source.old) blob.now room.old.entries image (λ rows row.
        Refuses None result) }
    ensures told { OfNode (S.device source.old) blob.now room.old.entries image (λ rows row.
        IfOk result (λ n. n ≡ times (S.device source.old).bytes
        (name_in (S.device source.old).bytes row)
        (map (read_place (S.device source.old).bytes) places.now))) }
{
    let mut name = [0; 256];
    let length = match read_name(source, blob, room, image, &mut name) {
        Ok(length) => length,
        Err(fault) => return Err(fault),
    };
    match times_at(source, room, places, &name[..length]) {
        Ok(found) => Ok(found),
        Err(_) => Err(SigningFault::Read),
    }
}

// Returns whether the configuration with these properties names an image.
pub(crate) fn is_named<S: Source, A: Allocator>(
    source: &mut S,
    blob: &Blob,
    room: &mut Room<A>,
    places: &[PropertyPlace],
    image: usize,
) -> Result<bool, SigningFault>
    requires node { image < length room.old.entries }
    requires within { blob.now.totalsize ≤ length (S.device source.old).bytes }
    requires places { All (CanBeRead (length (S.device source.old).bytes)) places.now }
    ensures uses { Asks (255 + 8447 * length places.now) (is_unread result) (S.device source.old)
        (S.device source.new) }
    ensures room { room.new ≡ room.old }
    ensures refused { OfNodeRead (S.device source.old) blob.now room.old.entries image (λ rows row.
        Refuses None result) }
    ensures told { OfNode (S.device source.old) blob.now room.old.entries image (λ rows row.
        IfOk result (λ it. it ≡ named (S.device source.old).bytes
        (name_in (S.device source.old).bytes row)
        (map (read_place (S.device source.old).bytes) places.now))) }
{
    match count_names(source, blob, room, places, image) {
        Ok(found) => Ok(found > 0),
        Err(fault) => Err(fault),
    }
}

// Returns how often the configuration names the image around a node.
fn parent_times<S: Source, A: Allocator>(
    source: &mut S,
    blob: &Blob,
    room: &mut Room<A>,
    places: &[PropertyPlace],
    node: usize,
) -> Result<u128, SigningFault>
    requires node { node < length room.old.entries }
    requires within { blob.now.totalsize ≤ length (S.device source.old).bytes }
    requires places { All (CanBeRead (length (S.device source.old).bytes)) places.now }
    ensures uses { Asks (255 + 8447 * length places.now) (is_unread result) (S.device source.old)
        (S.device source.new) }
    ensures room { room.new ≡ room.old }
    ensures refused { OfNodeRead (S.device source.old) blob.now room.old.entries node (λ rows row.
        Refuses None result) }
    ensures told { OfNode (S.device source.old) blob.now room.old.entries node (λ rows row.
        IfOk result (λ n. n ≡ parent_times (S.device source.old).bytes
        (map (read_place (S.device source.old).bytes) places.now) rows row.parent)) }
{
    let Some(parent) = blob.parent(room, node) else {
        return Ok(0);
    };
    if parent >= room.count() {
        return Err(SigningFault::Changed);
    }
    match blob.role(room, parent) {
        Role::Image => count_names(source, blob, room, places, parent),
        _ => Ok(0),
    }
}

// Returns whether a node is its image's cipher.
fn is_cipher_node<S: Source, A: Allocator>(
    source: &mut S,
    blob: &Blob,
    room: &mut Room<A>,
    node: usize,
) -> Result<bool, SigningFault>
    requires node { node < length room.old.entries }
    requires within { blob.now.totalsize ≤ length (S.device source.old).bytes }
    ensures uses { Asks 255 (is_unread result) (S.device source.old)
        (S.device source.new) }
    ensures room { room.new ≡ room.old }
    ensures refused { OfNodeRead (S.device source.old) blob.now room.old.entries node (λ rows row.
        Refuses None result) }
    ensures told { OfNode (S.device source.old) blob.now room.old.entries node (λ rows row.
        IfOk result (λ it. it ≡ is_cipher (name_in (S.device source.old).bytes row))) }
{
    let mut name = [0; 256];
    let length = match read_name(source, blob, room, node, &mut name) {
        Ok(length) => length,
        Err(fault) => return Err(fault),
    };
    Ok(is_cipher(&name[..length]))
}

// Returns how often U-Boot lists a node.
fn listed_times<S: Source, A: Allocator>(
    source: &mut S,
    blob: &Blob,
    room: &mut Room<A>,
    places: &[PropertyPlace],
    configuration: usize,
    node: usize,
) -> Result<u128, SigningFault>
    requires node { node < length room.old.entries }
    requires within { blob.now.totalsize ≤ length (S.device source.old).bytes }
    requires places { All (CanBeRead (length (S.device source.old).bytes)) places.now }
    ensures uses { Asks (510 + 8447 * length places.now) (is_unread result) (S.device source.old)
        (S.device source.new) }
    ensures room { room.new ≡ room.old }
    ensures refused { OfNodeRead (S.device source.old) blob.now room.old.entries node (λ rows row.
        Refuses None result) }
    ensures told { OfNode (S.device source.old) blob.now room.old.entries node (λ rows row.
        IfOk result (λ n. n ≡ listed_times (S.device source.old).bytes
        (map (read_place (S.device source.old).bytes) places.now) rows configuration node row)) }
{
    match blob.role(room, node) {
        Role::Root => Ok(1),
        Role::Configuration => Ok(u128::from(node == configuration)),
        Role::Image => count_names(source, blob, room, places, node),
        Role::Hash => parent_times(source, blob, room, places, node),
        Role::Other => match is_cipher_node(source, blob, room, node) {
            Ok(true) => parent_times(source, blob, room, places, node),
            Ok(false) => Ok(0),
            Err(fault) => Err(fault),
        },
        _ => Ok(0),
    }
}

// How many nodes are listed, and how many bytes their paths have, each with its NUL.
#[derive(Clone, Copy)]
struct Total {
    nodes: u128,
    bytes: u128,
}

// Adds a node that is listed so often, with a path of so many bytes, unless that is too much.
fn add_up(total: Total, times: u128, size: u64) -> Option<Total>
    ensures over { MatchOption result (is_over (total.nodes + times) (total.bytes + times * size) ≡ true)
        (λ sum. (sum.nodes ≡ total.nodes + times) × (sum.bytes ≡ total.bytes + times * size)) }
    ensures fits { IfSome result (λ sum. (sum.nodes ≤ 100) × (sum.bytes ≤ 4096)) }
{
    let nodes = total.nodes.saturating_add(times);
    if nodes > MOST_NODES {
        return None;
    }
    let bytes = total
        .bytes
        .saturating_add(times.saturating_mul(size as u128));
    if bytes > MOST_BYTES {
        return None;
    }
    Some(Total { nodes, bytes })
}

// Adds a node's offset if it is listed.
fn add_mark(marks: &mut Vec<u64>, at: u64, is_it: bool) -> Result<(), SigningFault>
    ensures no_read { is_unread result ≡ false }
    ensures refused { Refuses None result }
    ensures added { OnOk result (marks.new.items ≡ marks.old.items ++ mark_if is_it at) }
{
    if !is_it {
        return Ok(());
    }
    if marks.push(at).is_err() {
        return Err(SigningFault::OutOfMemory);
    }
    Ok(())
}

// Lists the offsets of the listed nodes, in reading order.
fn collect<S: Source, A: Allocator>(
    alloc: Global,
    source: &mut S,
    blob: &Blob,
    room: &mut Room<A>,
    places: &[PropertyPlace],
    configuration: usize,
) -> Result<Vec<u64>, SigningFault>
    requires within { blob.now.totalsize ≤ length (S.device source.old).bytes }
    requires places { All (CanBeRead (length (S.device source.old).bytes)) places.now }
    ensures uses { Asks (length room.old.entries * node_cost (length places.now)) (is_unread result)
        (S.device source.old) (S.device source.new) }
    ensures room { room.new ≡ room.old }
    ensures few { IfOk result (λ marks. length marks.items ≤ 100) }
    ensures refused { OfTableRead (S.device source.old) blob.now room.old.entries (λ rows.
        Refuses (many_refusal (are_over (S.device source.old).bytes
        (map (read_place (S.device source.old).bytes) places.now) rows configuration)) result) }
    ensures told { OfTable (S.device source.old) blob.now room.old.entries (λ rows.
        IfOk result (λ marks. marks.items ≡ marks_of (S.device source.old).bytes
        (map (read_place (S.device source.old).bytes) places.now) rows configuration)) }
{
    let mut marks = Vec::new(alloc);
    // the root's path is a slash, where `path_size` counts the NUL alone
    let mut total = Total { nodes: 0, bytes: 1 };
    let mut node = 0;
    let count = room.count();
    while node < count {
        let times = match listed_times(source, blob, room, places, configuration, node) {
            Ok(times) => times,
            Err(fault) => return Err(fault),
        };
        let at = blob.name(room, node).place.saturating_sub(4);
        let size = path_size(blob, room, node);
        let sum = match add_up(total, times, size) {
            Some(sum) => sum,
            None => return Err(SigningFault::TooManyNodes),
        };
        match add_mark(&mut marks, at, times > 0) {
            Ok(()) => total = sum,
            Err(fault) => return Err(fault),
        }
        node += 1;
    }
    Ok(marks)
}

// As `collect`, of a configuration that names an image, each with a hash node.
fn collect_hashed<S: Source, A: Allocator>(
    alloc: Global,
    source: &mut S,
    blob: &Blob,
    room: &mut Room<A>,
    places: &[PropertyPlace],
    configuration: usize,
) -> Result<Vec<u64>, SigningFault>
    requires within { blob.now.totalsize ≤ length (S.device source.old).bytes }
    requires places { All (CanBeRead (length (S.device source.old).bytes)) places.now }
    ensures uses { Asks (length room.old.entries * node_cost (length places.now)
        + length room.old.entries * node_cost (length places.now)) (is_unread result)
        (S.device source.old) (S.device source.new) }
    ensures room { room.new ≡ room.old }
    ensures few { IfOk result (λ marks. length marks.items ≤ 100) }
    ensures refused { OfTableRead (S.device source.old) blob.now room.old.entries (λ rows.
        Refuses (nodes_refusal (are_many (S.device source.old).bytes
        (map (read_place (S.device source.old).bytes) places.now) rows configuration)
        (are_hashed (S.device source.old).bytes
        (map (read_place (S.device source.old).bytes) places.now) rows)) result) }
    ensures told { OfTable (S.device source.old) blob.now room.old.entries (λ rows.
        IfOk result (λ marks. marks.items ≡ marks_of (S.device source.old).bytes
        (map (read_place (S.device source.old).bytes) places.now) rows configuration)) }
{
    let marks = match collect(alloc, source, blob, room, places, configuration) {
        Ok(marks) => marks,
        Err(fault) => return Err(fault),
    };
    if are_apart(blob, room, &marks) {
        return Err(SigningFault::TooManyNodes);
    }
    match are_hashed(source, blob, room, places) {
        Ok(true) => Ok(marks),
        Ok(false) => Err(SigningFault::Unhashed),
        Err(fault) => Err(fault),
    }
}

/// Lists the nodes that the signature of a configuration covers, by the offsets of their first
/// tokens, in reading order, each once: the root, the configuration, each image that it names by a
/// property other than `description`, `compatible` and `default`, and the hash nodes and `cipher` of
/// such an image. A value that does not end with a NUL names nothing.
///
/// Blob and room must be as `index` left them, and the number of the configuration below the count
/// of entries. At most 100 nodes are listed. Of an honest source it requests at most what
/// `listing_cost` says. Only the room's window changes.
///
/// - `Read`: if and only if a read failed.
/// - `OutOfMemory`: only if memory for the offsets was refused.
/// - `TooLong`: if and only if a value of the configuration has more than 8192 bytes.
/// - `TooManyNodes`: otherwise, if and only if one of these holds, so that U-Boot may not have place.
///   - More than 100 nodes are listed; an image, its hash nodes and its cipher count once for each
///     text that names the image.
///   - The paths of these, each with its NUL, have more than 4096 bytes together.
///   - Of n different listed nodes, more than 17 + 2 n children are not listed.
/// - `Unhashed`: otherwise, if and only if the configuration names no image, or one that has no hash
///   node.
/// - `Changed`: only if the source does not have the blob that was indexed.
pub fn list_nodes<S: Source, A: Allocator>(
    alloc: Global,
    source: &mut S,
    blob: &Blob,
    room: &mut Room<A>,
    configuration: usize,
) -> Result<Vec<u64>, SigningFault>
    requires node { configuration < length room.old.entries }
    ensures uses { Uses (is_unread result) (S.device source.old) (S.device source.new) }
    ensures room { room.new ≡ room.old }
    ensures few { IfOk result (λ marks. length marks.items ≤ 100) }
    ensures asked { OfTreeRead (S.device source.old) blob.now room.old.entries configuration
        (λ rows row. (S.device source.new).asked ≤ (S.device source.old).asked
        + listing_cost (length rows) (length row.own) (nops_met (S.device source.old).bytes)) }
    ensures refused { OfTreeRead (S.device source.old) blob.now room.old.entries configuration
        (λ rows row. Refuses (listing_refusal (places_of row) (are_many (S.device source.old).bytes
        (places_of row) rows configuration)
        (are_hashed (S.device source.old).bytes (places_of row) rows)) result) }
    ensures told { OfTreeRead (S.device source.old) blob.now room.old.entries configuration
        (λ rows row. IfOk result (λ marks. marks.items
        ≡ marks_of (S.device source.old).bytes (places_of row) rows configuration)) }
{
    let places = match properties_of(alloc, source, blob, room, configuration) {
        Ok(places) => places,
        Err(fault) => return Err(SigningFault::from(fault)),
    };
    if has_long(&places) {
        return Err(SigningFault::TooLong);
    }
    collect_hashed(alloc, source, blob, room, &places, configuration)
}
