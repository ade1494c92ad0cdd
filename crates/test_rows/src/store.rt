//! Rows for stores. `= store RESOURCES BYTES VERSION` creates one.
//!
//! The event `ask REQUEST TIME` writes the result of `Store::answer`. The event `make REQUEST` also applies its change.
//! The other events are calls of the embedding program:
//!
//! - `put REQUEST FORMAT`, with the path and the payload of a request,
//! - `remove REQUEST`,
//! - `state REQUEST TIME`,
//! - `notify REQUEST TIME FORMAT`,
//! - `path REQUEST`, which writes the `PathKey` of its segments.
//!
//! A FORMAT of 65536 is none.

use crate::layer::Layer;
use crate::row_line::RowLine;
use crate::row_words::{cut, number, numbers, read_hex};
use arrayvec::ArrayVec;
use coap_store::{
    Change, PathKey, Plan, PlannedChange, State, Store, UriPath, Watch, request_path,
};
use coap_wire::option_numbers::URI_PATH;
use coap_wire::{MessageRef, parse};
use std::alloc::{AllocError, Global};

/// Writes the location of a new resource.
fn tell_location(location: Option<UriPath>, results: &mut RowLine) {
    if let Some(path) = location {
        for segment in path {
            results.hex(segment);
        }
    }
    results.word(";");
}

/// Writes the words for the change and for the effect on the observer.
fn tell_effects(plan: &Plan, results: &mut RowLine) {
    results.word(match plan.change() {
        Change::Nothing => "-",
        Change::Put { .. } => "Put",
        Change::Delete(_) => "Delete",
    });
    results.word(match plan.watch() {
        Watch::Nothing => "-",
        Watch::Add => "Add",
        Watch::Drop => "Drop",
    });
}

/// Writes the word for a change whose path is in the options of its request.
fn tell_planned_change(change: &PlannedChange, results: &mut RowLine) {
    results.word(match change {
        PlannedChange::Nothing => "-",
        PlannedChange::Put { .. } => "Put",
        PlannedChange::Delete { .. } => "Delete",
    });
}

/// Writes a plan: the code, the change, the effect on the observer, each part of the response, and the payload. Writes
/// the change again, as the plan gives it up.
fn tell_plan(plan: Plan, results: &mut RowLine) {
    results.number(plan.code().byte() as u64);
    tell_effects(&plan, results);
    results.debug(&plan.hold());
    results.debug(&plan.etag());
    results.debug(&plan.format());
    results.debug(&plan.max_age());
    tell_location(plan.location(), results);
    results.debug(&plan.size1());
    results.hex(plan.payload());
    tell_planned_change(plan.into_change().change(), results);
}

/// Returns the plan for the request that the bytes encode, at the given time. The plan borrows the store and these
/// bytes. The parsed message is dropped here.
fn planned<'s, 'r>(store: &'s Store, bytes: &'r [u8], moment: u64) -> Option<Plan<'s, 'r>> {
    let request = parse(bytes).ok()?;
    Some(store.answer(&request, moment))
}

/// Writes the plan for the request that the bytes encode, at the given time.
fn tell_planned(store: &Store, bytes: &[u8], moment: u64, results: &mut RowLine) {
    if let Some(plan) = planned(store, bytes, moment) {
        tell_plan(plan, results);
    }
}

/// Applies the change that a request makes, or writes `memory` if allocation fails.
fn make(store: &mut Store, request: &MessageRef, results: &mut RowLine) {
    // The change borrows the request alone.
    let change = store.answer(request, 0).change();
    if store.apply(change).is_err() {
        results.word("memory");
    }
}

/// Returns the key of the path segments of a request, or `None` if there is no such key. Segments after the 17th are
/// dropped, so that a path of more than 16 is still too long.
fn path_of(request: &MessageRef) -> Option<PathKey> {
    let mut segments: ArrayVec<&[u8], 17> = ArrayVec::new();
    for option in request.options() {
        if option.number == URI_PATH {
            let _ = segments.try_push(option.value);
        }
    }
    PathKey::from_segments(segments.as_slice())
}

/// Writes the segments of a key, whether its copy is equal, and whether the key is the path of the request.
fn tell_path(path: &PathKey, request: &MessageRef, results: &mut RowLine) {
    for segment in path.segments() {
        results.hex(segment);
    }
    results.debug(&(path.duplicate() == *path));
    let is_path_of_request = match request_path(request) {
        Some(fields) => fields == *path,
        None => false,
    };
    results.debug(&is_path_of_request);
}

/// Writes a state, or nothing if the resource is absent.
fn tell_state(state: &State, results: &mut RowLine) {
    if let State::Present(present) = state {
        results.number(present.version());
        results.debug(&present.format());
        results.hex(present.bytes());
    }
}

/// Executes a call of the embedding program with the path of a request, and writes the result.
fn change(store: &mut Store, word: &str, request: &MessageRef, rest: &str, results: &mut RowLine) {
    let Some(path) = path_of(request) else {
        return results.word("none");
    };
    let [moment, format, ..] = numbers(rest);
    let (moment, format) = (moment as u64, u16::try_from(format).ok());
    match word {
        "path" => tell_path(&path, request, results),
        "put" => results.debug(&store.put(&path, format, request.payload())),
        "remove" => results.debug(&store.remove(&path)),
        "state" => tell_state(&store.state(&path, moment), results),
        "notify" => tell_plan(store.notification(&path, format, moment), results),
        _ => results.word("strange"),
    }
}

impl Layer for Store {
    /// Creates a store for the given number of resources, bytes of a representation, and last version.
    fn opened(alloc: Global, words: &str) -> Option<Result<Store, AllocError>> {
        let [dynamic_max, rep_max, versions, ..] = numbers(words);
        if dynamic_max > 1_000 || rep_max > 1_048_576 {
            return None;
        }
        Some(Store::new(alloc, dynamic_max, rep_max, versions as u64))
    }

    /// Executes an event, and writes its result.
    fn play(&mut self, _alloc: Global, event: &str, bytes: &mut Vec<u8>, results: &mut RowLine) {
        let (word, rest) = cut(event);
        let (digits, rest) = cut(rest);
        read_hex(digits, bytes);
        let Ok(request) = parse(bytes) else {
            return results.word("strange");
        };
        match word {
            "ask" => tell_planned(self, bytes, number(rest) as u64, results),
            "make" => {
                tell_planned(self, bytes, 0, results);
                make(self, &request, results);
            }
            _ => change(self, word, &request, rest, results),
        }
    }
}
