//! Messages about bytes that differ, with the bytes as readable text.

use std::alloc::{AllocError, Global};

/// Returns bytes as text: printable ASCII as it is, a line feed as `\n`, and any other byte as `\x` and two digits.
pub(crate) fn shown(alloc: Global, bytes: &[u8]) -> Result<String, AllocError> {
    let mut text = String::new(alloc);
    for byte in bytes {
        match byte {
            b'\n' => text.push_str("\\n")?,
            0x20..=0x7e => text.push(char::from(*byte))?,
            _ => write!(text, "\\x{byte:02x}")?,
        }
    }
    Ok(text)
}

/// The maximum number of bytes of each side in a message.
const TOLD: usize = 60;

fn excerpt(alloc: Global, bytes: &[u8], place: usize) -> Result<String, AllocError> {
    let behind = bytes.get(place..).unwrap_or(&[]);
    shown(alloc, &behind[..behind.len().min(TOLD)])
}

/// Returns the length of the common prefix.
fn common(wanted: &[u8], found: &[u8]) -> usize {
    let mut same: usize = 0;
    for (a, b) in wanted.iter().zip(found) {
        if a != b {
            break;
        }
        same = same.saturating_add(1);
    }
    same
}

/// Returns a message about two texts that differ.
pub(crate) fn difference(
    alloc: Global,
    what: &str,
    wanted: &[u8],
    found: &[u8],
) -> Result<String, AllocError> {
    let from = common(wanted, found).saturating_sub(TOLD / 3);
    let wanted = excerpt(alloc, wanted, from)?;
    let found = excerpt(alloc, found, from)?;
    format!(in alloc; "{what} from byte {from}: wanted '{wanted}', found '{found}'")
}
