//! Algorithms: their names, and the lengths of their digests.

ghost use Rattle.std.specs.Prelude.{◌≡◌};
ghost use Rattle.uimg_sums.specs.Algorithms.{all_algos, profile_algos, named_among, algo_named, algo_name, digest_size};

/// A checksum or hash algorithm: ITU-T V.41 (CRC-16), ITU-T V.42 (CRC-32), RFC 1321 (MD5) or FIPS
/// 180-4 (SHA).
///
/// Their order is that of their strength; the weakest is first.
#[derive(Clone, Copy, Debug, PartialEq, Eq)]
pub enum Algo {
    Crc16,
    Crc32,
    Md5,
    Sha1,
    Sha256,
    Sha384,
    Sha512,
}

/// The algorithms in order.
pub const ALGOS: [Algo; 7] = [
    Algo::Crc16,
    Algo::Crc32,
    Algo::Md5,
    Algo::Sha1,
    Algo::Sha256,
    Algo::Sha384,
    Algo::Sha512,
];

fn named_among(among: &[Algo], name: &[u8]) -> Option<Algo>
    ensures { result ≡ named_among among.now name.now }
{
    for algo in among {
        if name == algo.name().as_bytes() {
            return Some(*algo);
        }
    }
    None
}

impl Algo {
    /// Looks up an algorithm of the profile, all but `Crc16`, by its name. Returns `None` if none of
    /// them has it.
    ///
    /// The names are spelled as in the `algo` property of a FIT hash node and in U-Boot's `hash.c`.
    /// Case matters.
    pub fn named(name: &[u8]) -> Option<Algo>
        ensures { result ≡ algo_named name.now }
    {
        named_among(&ALGOS[1..], name)
    }

    /// Looks up any algorithm by its name. Returns `None` if none has it. Case matters.
    pub fn known(name: &[u8]) -> Option<Algo>
        ensures { result ≡ named_among all_algos name.now }
    {
        named_among(&ALGOS, name)
    }

    // The length of a digest is in bytes.
    fn row(self) -> (&'static str, usize)
        ensures name { result.0.now ≡ algo_name self }
        ensures size { result.1 ≡ digest_size self }
    {
        match self {
            Algo::Crc16 => ("crc16-ccitt", 2),
            Algo::Crc32 => ("crc32", 4),
            Algo::Md5 => ("md5", 16),
            Algo::Sha1 => ("sha1", 20),
            Algo::Sha256 => ("sha256", 32),
            Algo::Sha384 => ("sha384", 48),
            Algo::Sha512 => ("sha512", 64),
        }
    }

    /// Returns the algorithm's name.
    pub fn name(self) -> &'static str
        ensures { result.now ≡ algo_name self }
    {
        self.row().0
    }

    /// Returns the length of a digest in bytes.
    pub fn len(self) -> usize
        ensures { result ≡ digest_size self }
    {
        self.row().1
    }
}
