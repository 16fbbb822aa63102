// The loads of reads: the sum of all that they answer, modulo 2^32.
use answers::{Capacity, LeftRead};
use callrate_choices::{OFFERED_COUNT, Rights};
use cells::Book;
use rules::{Hour, Refusal};

fn sum_of_all(mw: [u32; 5]) -> u32 {
    mw.iter().fold(0, |sum: u32, x| sum.wrapping_add(*x))
}

fn confirmed_sum(book: &Book, rights: Rights, i: u32) -> u32 {
    let pair = rights.pair(callrate_choices::shuffled(i));
    match daybook::confirmed_of(book, pair.right, pair.out, pair.into) {
        Ok(mw) => sum_of_all(mw),
        Err(refusal) => callrate_books::sum_of(Err(refusal)),
    }
}

// Reads of the confirmed MW of each of 512 pairs.
pub fn confirmed(book: &mut Book, rights: Rights, calls: u32) -> u32 {
    callrate_books::match_pairs(book, rights);
    (0..calls)
        .map(|i| confirmed_sum(book, rights, i))
        .fold(0, u32::wrapping_add)
}

fn left_of(book: &Book, asked: Capacity, hour: Hour) -> Result<LeftRead, Refusal> {
    match asked {
        Capacity::Direction(direction) => daybook::left_of_direction(book, direction, hour),
        Capacity::Profile(profile) => daybook::left_of_profile(book, profile, hour),
    }
}

fn left_sum(book: &Book, i: u32) -> u32 {
    let hour = Hour((i / OFFERED_COUNT % 26) as u8);
    match left_of(book, callrate_choices::offered_at(i), hour) {
        Ok(read) => read.left.wrapping_add(read.shortfall),
        Err(refusal) => callrate_books::sum_of(Err(refusal)),
    }
}

// Reads of what is left of a direction or a profile, of hours that are offered, cut, not offered, and not there.
pub fn left(book: &mut Book, calls: u32) -> u32 {
    callrate_books::cut_offers(book);
    (0..calls)
        .map(|i| left_sum(book, i))
        .fold(0, u32::wrapping_add)
}

fn right_sum(book: &Book, i: u32) -> u32 {
    match daybook::right_at(book, (i % 520) as u16) {
        Ok(read) => {
            let names = read.holder as u32 + read.direction as u32 + read.session.0 as u32;
            names.wrapping_add(sum_of_all(read.mw))
        }
        Err(refusal) => callrate_books::sum_of(Err(refusal)),
    }
}

// Reads of rights, of which a few are not there.
pub fn right(book: &Book, calls: u32) -> u32 {
    (0..calls)
        .map(|i| right_sum(book, i))
        .fold(0, u32::wrapping_add)
}
