//! Entries of an application, in one word with commas between them. Each is a path, hex digits of the codes of its
//! methods, and hex digits of the attributes of its link: `/rd:0204:6f6273,/lamp:03:`.

use crate::row_words::{read_hex, split_first};
use arrayvec::ArrayVec;
use coap_path::{ApplicationFault, Applications, PathKey};
use coap_wire::Code;
use std::alloc::{AllocError, Global};

/// Maximum number of entries in a word. An application has fewer.
const MOST: usize = 64;

/// Returns the key of a path such as `/rd/new`, or that of the root if there is no such key.
fn path_of(text: &str) -> PathKey {
    let mut segments: ArrayVec<&[u8], 17> = ArrayVec::new();
    let mut rest = Some(text.strip_prefix("/").unwrap_or(text));
    for _ in 0..17 {
        let Some(text) = rest else {
            break;
        };
        let (segment, later) = split_first(text, '/');
        let _ = segments.try_push(segment.as_bytes());
        rest = later;
    }
    PathKey::from_segments(segments.as_slice()).unwrap_or(PathKey::root())
}

/// Returns the methods with the codes of these bytes, followed by empty codes. Bytes after the 31st are dropped.
fn methods_of(bytes: &[u8]) -> [Code; 31] {
    let mut methods = [Code::EMPTY; 31];
    let mut codes = bytes.iter();
    for method in &mut methods {
        if let Some(code) = codes.next() {
            *method = Code::new(*code);
        }
    }
    methods
}

/// Adds an entry to an application.
fn add(
    applications: &mut Applications,
    entry: &str,
    bytes: &mut Vec<u8>,
) -> Result<(), ApplicationFault> {
    let (path, entry) = entry.split_once(':').unwrap_or((entry, ""));
    let (digits, attributes) = entry.split_once(':').unwrap_or((entry, ""));
    read_hex(digits, bytes);
    let count = bytes.len();
    let methods = methods_of(bytes);
    read_hex(attributes, bytes);
    applications.add(
        &path_of(path),
        methods.get(..count).unwrap_or(&methods),
        bytes,
    )
}

/// Adds each entry of a word to an application.
fn add_all(
    applications: &mut Applications,
    entries: &str,
    bytes: &mut Vec<u8>,
) -> Result<(), ApplicationFault> {
    let mut rest = Some(entries);
    for _ in 0..MOST {
        let Some(text) = rest else {
            break;
        };
        let (entry, later) = split_first(text, ',');
        add(applications, entry, bytes)?;
        rest = later;
    }
    Ok(())
}

/// Adds the entries of a word to an application.
fn with_entries(
    alloc: Global,
    mut applications: Applications,
    entries: &str,
) -> Result<Applications, ApplicationFault> {
    let Ok(mut bytes) = Vec::with_capacity(alloc, 255) else {
        return Err(ApplicationFault::Memory);
    };
    add_all(&mut applications, entries, &mut bytes)?;
    Ok(applications)
}

/// Creates the entries of an application that has `deadline` seconds for a response.
pub(crate) fn applications(
    alloc: Global,
    deadline: usize,
    entries: &str,
) -> Result<Applications, ApplicationFault> {
    let deadline = deadline.clamp(1, 4_294_967_295) as u32;
    match Applications::new(alloc, deadline) {
        Ok(applications) => with_entries(alloc, applications, entries),
        Err(AllocError) => Err(ApplicationFault::Memory),
    }
}
