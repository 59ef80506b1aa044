//! The ten numbers at the beginning of a devicetree blob.

ghost use Rattle.std.specs.Prelude.{◌≡◌, is_err, IfOk};
ghost use Rattle.uimg_base.specs.{Honest.HonestSource, Using.Asks};
ghost use Rattle.uimg_map.specs.FdtHeader.{fdt_header_at_start, fdt_header_of};

use uimg_base::{Source, SourceFault, be32_at};

// The magic number of a blob.
const MAGIC: u32 = 0xd00d_feed;

/// The length of a blob's header, in bytes.
pub const BLOB_HEADER_LEN: usize = 40;

/// The numbers of a blob's header (Devicetree Specification, section 5.2).
#[derive(Clone, Copy, Debug, PartialEq, Eq)]
pub struct FdtHeader {
    /// The magic number.
    pub magic: u32,

    /// The length of the blob, in bytes.
    pub totalsize: u32,

    /// The offset of the structure block.
    pub off_dt_struct: u32,

    /// The offset of the strings block.
    pub off_dt_strings: u32,

    /// The offset of the memory reservation block.
    pub off_mem_rsvmap: u32,

    /// The version of the format.
    pub version: u32,

    /// The lowest version that it is compatible with.
    pub last_comp_version: u32,

    /// The processor that boots.
    pub boot_cpuid_phys: u32,

    /// The length of the strings block, in bytes.
    pub size_dt_strings: u32,

    /// The length of the structure block, in bytes.
    pub size_dt_struct: u32,
}

fn fdt_header_at_start(bytes: &[u8; BLOB_HEADER_LEN]) -> FdtHeader
    ensures { result ≡ fdt_header_at_start bytes.now }
{
    FdtHeader {
        magic: be32_at(bytes, 0),
        totalsize: be32_at(bytes, 4),
        off_dt_struct: be32_at(bytes, 8),
        off_dt_strings: be32_at(bytes, 12),
        off_mem_rsvmap: be32_at(bytes, 16),
        version: be32_at(bytes, 20),
        last_comp_version: be32_at(bytes, 24),
        boot_cpuid_phys: be32_at(bytes, 28),
        size_dt_strings: be32_at(bytes, 32),
        size_dt_struct: be32_at(bytes, 36),
    }
}

/// Reads the numbers of a blob's header. Returns none if the source has fewer than 40 bytes or does
/// not begin with `0xd00dfeed`; nothing else is checked. Requests at most 40 bytes.
#[tactic(auto, unfolding(crate::specs::FdtHeader::fdt_header_of))]
pub fn read_fdt_header<S: Source>(source: &mut S) -> Result<Option<FdtHeader>, SourceFault>
    ensures uses { Asks 40 (is_err result) (S.device source.old) (S.device source.new) }
    ensures found { HonestSource S.device source →
        IfOk result (λ found. found ≡ fdt_header_of (S.device source.old).bytes) }
{
    if source.size()? < BLOB_HEADER_LEN as u64 {
        return Ok(None);
    }
    let mut bytes = [0; BLOB_HEADER_LEN];
    source.fill_at(0, &mut bytes)?;
    let header = fdt_header_at_start(&bytes);
    if header.magic != MAGIC {
        return Ok(None);
    }
    Ok(Some(header))
}
