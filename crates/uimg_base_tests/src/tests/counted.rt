//! A long text of counted bytes.

/// Returns the numbers from 0 to 250, repeated. The first 5000 of these bytes are the counted text.
pub(super) fn counted() -> [u8; 20000] {
    let mut bytes = [0; 20000];
    for (number, byte) in bytes.iter_mut().enumerate() {
        *byte = (number % 251) as u8;
    }
    bytes
}
