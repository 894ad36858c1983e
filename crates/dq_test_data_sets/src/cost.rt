//! The cost of a data set: the processor's time of reading it, of writing it, and of a plain copy
//! of its octets.
ghost use Rattle.std.specs.Prelude.{◌<◌, ◌^◌, length};

use crate::stop::Stop;
use dq_dataset::{Elements, Syntax, laws, read, write};
use std::alloc::{AllocError, Global};
use std::time::{CpuClock, Duration};

/// The elements that the octets of a sample spell, in Explicit.
#[derive(Clone, Copy, Debug, PartialEq, Eq)]
pub(crate) enum Shape {
    /// Elements of 64 octets each.
    Flat,
    /// A sequence of items of 64 octets each.
    Items,
    /// Elements of 64 octets each, in 16 sequences that nest.
    Deep,
    /// A sequence of items of 17 octets each: one element of one octet.
    Small,
}

impl Shape {
    pub(crate) fn of(word: &str) -> Option<Shape> {
        match word {
            "flat" => Some(Shape::Flat),
            "items" => Some(Shape::Items),
            "deep" => Some(Shape::Deep),
            "small" => Some(Shape::Small),
            _ => None,
        }
    }
}

/// The elements or items of 64 octets of a data set of 1 MiB.
const COUNT: u32 = 16_384;

/// The items of 17 octets of a data set of 1 MiB.
const SMALL_COUNT: u32 = 61_680;

/// The value of an element of 64 octets, with the header of which the tag is left out.
const TEXT: &[u8] = b"LO\x38\x00COMPUTED TOMOGRAPHY OF THE KNEE WITH CONTRAST MEDIUM    ";

/// An item of 64 octets, with (0040,0244) and (0040,0254).
const ITEM: &[u8] =
    b"\xfe\xff\x00\xe0\x38\x00\x00\x00\x40\x00\x44\x02DA\x08\x0020240705\x40\x00\x54\x02LO\x20\x00\
    COMPUTED TOMOGRAPHY OF THE KNEE ";

/// An item of 17 octets, with (0010,0040).
const SMALL_ITEM: &[u8] = b"\xfe\xff\x00\xe0\x09\x00\x00\x00\x10\x00\x40\x00CS\x01\x00M";

/// So many elements of tags that are not known.
fn elements(alloc: Global, count: u32) -> Result<Vec<u8>, AllocError> {
    let mut octets = Vec::new(alloc);
    for number in 1..=count {
        let [first, second, third, _] = number.to_le_bytes();
        octets.extend_from_slice(&[third.wrapping_add(0x11), 0, first, second])?;
        octets.extend_from_slice(TEXT)?;
    }
    Ok(octets)
}

/// The item so many times.
fn items(alloc: Global, item: &[u8], count: u32) -> Result<Vec<u8>, AllocError> {
    let mut octets = Vec::new(alloc);
    for _ in 0..count {
        octets.extend_from_slice(item)?;
    }
    Ok(octets)
}

/// Returns the head and the octets that follow it, with their length of four octets between them.
fn behind(alloc: Global, head: &[u8], octets: &[u8]) -> Result<Vec<u8>, AllocError> {
    let length = u32::try_from(octets.len()).unwrap_or(u32::MAX);
    let mut all = Vec::from_slice(alloc, head)?;
    all.extend_from_slice(&length.to_le_bytes())?;
    all.extend_from_slice(octets)?;
    Ok(all)
}

/// A sequence (0040,0275) of these items.
fn sequence(alloc: Global, items: &[u8]) -> Result<Vec<u8>, AllocError> {
    behind(alloc, b"\x40\x00\x75\x02SQ\x00\x00", items)
}

/// The octets of a data set of 1 MiB, or of so many parts of it.
fn sample(alloc: Global, shape: Shape, parts: u32) -> Result<Vec<u8>, AllocError> {
    let count = COUNT / 2 * parts.min(64);
    match shape {
        Shape::Flat => elements(alloc, count),
        Shape::Items => sequence(alloc, &items(alloc, ITEM, count)?),
        Shape::Small => sequence(
            alloc,
            &items(alloc, SMALL_ITEM, SMALL_COUNT / 2 * parts.min(64))?,
        ),
        Shape::Deep => {
            let mut octets = elements(alloc, count)?;
            for _ in 0..16 {
                let item = behind(alloc, b"\xfe\xff\x00\xe0", &octets)?;
                octets = sequence(alloc, &item)?;
            }
            Ok(octets)
        }
    }
}

fn spent_reading(
    alloc: Global,
    clock: &impl CpuClock,
    octets: &[u8],
    calls: u32,
) -> Result<Duration, Stop> {
    let start = clock.process_cpu_time()?;
    for _ in 0..calls {
        read(alloc, octets, Syntax::Explicit)?;
    }
    Ok(clock.process_cpu_time()?.saturating_sub(start))
}

fn spent_writing(
    alloc: Global,
    clock: &impl CpuClock,
    octets: &[u8],
    calls: u32,
) -> Result<Duration, Stop>
    requires { length octets.now < 2 ^ 31 }
{
    let data_set = read(alloc, octets, Syntax::Explicit)?;
    laws::spelling_law();
    let start = clock.process_cpu_time()?;
    for _ in 0..calls {
        write(alloc, &data_set, Syntax::Explicit)?;
    }
    Ok(clock.process_cpu_time()?.saturating_sub(start))
}

fn spent_lending(clock: &impl CpuClock, octets: &[u8], calls: u32) -> Result<Duration, Stop> {
    let start = clock.process_cpu_time()?;
    for _ in 0..calls {
        for lent in Elements::new(octets, Syntax::Explicit) {
            lent?;
        }
    }
    Ok(clock.process_cpu_time()?.saturating_sub(start))
}

/// The last copy is handed out, so that no compiler leaves the copies out.
fn spent_copying(
    alloc: Global,
    clock: &impl CpuClock,
    octets: &[u8],
    calls: u32,
) -> Result<(Duration, Vec<u8>), Stop> {
    let mut copied = Vec::new(alloc);
    let start = clock.process_cpu_time()?;
    for _ in 0..calls {
        copied = Vec::from_slice(alloc, octets)?;
    }
    Ok((clock.process_cpu_time()?.saturating_sub(start), copied))
}

fn print_cost(rt: &impl Print, name: &str, spent: Duration, calls: u32) -> Result<(), Stop> {
    let microseconds = spent.as_micros() / u128::from(calls.max(1));
    println!(rt; "{name} {microseconds}")?;
    Ok(())
}

/// Prints what a read of a data set of 1 MiB, or of half of it, a write, a pass of `Elements` and a
/// plain copy cost, in microseconds a call.
pub(crate) fn print_costs<R: Print + AllocGlobal + CpuClock>(
    rt: &R,
    shape: Shape,
    is_half: bool,
    calls: u32,
) -> Result<(), Stop> {
    let alloc = rt.alloc();
    let octets = sample(alloc, shape, if is_half { 1 } else { 2 })?;
    if octets.len() >= 1 << 31 {
        return Err(Stop::Usage);
    }
    let spent = spent_reading(alloc, rt, &octets, calls)?;
    print_cost(rt, "read", spent, calls)?;
    let spent = spent_writing(alloc, rt, &octets, calls)?;
    print_cost(rt, "write", spent, calls)?;
    let spent = spent_lending(rt, &octets, calls)?;
    print_cost(rt, "lend", spent, calls)?;
    let (spent, copied) = spent_copying(alloc, rt, &octets, calls)?;
    if calls > 0 && copied != octets {
        return Err(Stop::System);
    }
    print_cost(rt, "copy", spent, calls)
}

/// Reads a data set of 16 MiB so many times, one after the other, for the memory that this takes.
pub(crate) fn take_memory(alloc: Global, shape: Shape, calls: u32) -> Result<(), Stop> {
    let octets = sample(alloc, shape, 32)?;
    for _ in 0..calls {
        read(alloc, &octets, Syntax::Explicit)?;
    }
    Ok(())
}
