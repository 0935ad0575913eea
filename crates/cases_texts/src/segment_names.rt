// The names of a funnel's segments, and which segment has the next line: the crate segments.
use crate::fault::RowFault;
use crate::octets::{number_in, put, put_printed};
use segments::{AddFault, Segments, name_of, read_name};
use std::alloc::{AllocError, Global};

/// The number that a name has, and the name of that number; or that the name is not a segment's, or its fault.
pub fn put_name(answer: &mut Vec<u8>, name: &[u8]) -> Result<(), AllocError> {
    match read_name(name) {
        Ok(Some(first)) => {
            put_printed(answer, &first)?;
            put(answer, &name_of(first))
        }
        Ok(None) => put(answer, b"none"),
        Err(fault) => put_printed(answer, &fault),
    }
}

// The segments whose first lines have the numbers in the arguments after the first one, added in this order.
fn segments_in(alloc: Global, arguments: &[Vec<u8>]) -> Result<Segments, RowFault> {
    let mut segments = Segments::new(alloc);
    for index in 1..arguments.len() {
        let place = index.saturating_add(1);
        let first = number_in(arguments, place)?;
        match segments.add(&name_of(first)) {
            Ok(_) => {}
            Err(AddFault::NoMemory) => return Err(RowFault::from(AllocError)),
            Err(AddFault::Name(_)) => return Err(RowFault::Argument(place, "a line's number")),
        }
    }
    Ok(segments)
}

/// Where the line after a mark is: the segment, and how many of its lines are skipped.
pub fn put_place(answer: &mut Vec<u8>, arguments: &[Vec<u8>]) -> Result<(), RowFault> {
    let mark = number_in(arguments, 1)?;
    match segments_in(*answer.allocator(), arguments)?.place_of(mark) {
        Some(place) => {
            put_printed(answer, &place.first)?;
            put_printed(answer, &place.skipped)?;
        }
        None => put(answer, b"none")?,
    }
    Ok(())
}

/// The segment after a number, and those before it.
pub fn put_sides(answer: &mut Vec<u8>, arguments: &[Vec<u8>]) -> Result<(), RowFault> {
    let first = number_in(arguments, 1)?;
    let segments = segments_in(*answer.allocator(), arguments)?;
    match segments.after(first) {
        Some(next) => put_printed(answer, &next)?,
        None => put(answer, b"none")?,
    }
    for before in segments.before(first) {
        put_printed(answer, before)?;
    }
    Ok(())
}

/// The answer for each name of a directory, and the segments that there are then.
pub fn put_added(answer: &mut Vec<u8>, names: &[Vec<u8>]) -> Result<(), AllocError> {
    let mut segments = Segments::new(*answer.allocator());
    for name in names {
        put_added_name(answer, &mut segments, name)?;
    }
    for first in segments.before(u64::MAX) {
        put_printed(answer, first)?;
    }
    Ok(())
}

// Whether a name is added, or its fault; and whether there is a segment then.
fn put_added_name(
    answer: &mut Vec<u8>,
    segments: &mut Segments,
    name: &[u8],
) -> Result<(), AllocError> {
    match segments.add(name) {
        Ok(true) => put(answer, b"yes")?,
        Ok(false) => put(answer, b"no")?,
        Err(AddFault::NoMemory) => return Err(AllocError),
        Err(AddFault::Name(fault)) => put_printed(answer, &fault)?,
    }
    put(
        answer,
        if segments.is_empty() {
            b"empty"
        } else {
            b"some"
        },
    )
}
