// A benchmark: each load fills a book, makes many calls, and prints the sum of the answers.
// `callrate LOAD` runs the load of that name, `callrate` all of them.
#![tactic(auto)]

mod read_loads;

use callrate_books::{TalliedBook, Tally};
use callrate_choices::{Bids, Rights};
use std::io;
use std::rt::Env;

// What a load calls, over and over, and where it isn't always the same the rights that it finds.
#[derive(Clone, Copy)]
enum Calls {
    Bids(Bids),
    Nominations(Rights),
    Confirmed(Rights),
    Left,
    Right,
}

#[derive(Clone, Copy)]
struct Load {
    name: &'static str,
    calls: Calls,
    count: u32,
}

static LOADS: [Load; 11] = [
    Load {
        name: "bids",
        calls: Calls::Bids(Bids::Mixed),
        count: 100000,
    },
    Load {
        name: "standing",
        calls: Calls::Bids(Bids::Standing),
        count: 130000,
    },
    Load {
        name: "full",
        calls: Calls::Bids(Bids::Full),
        count: 400000,
    },
    Load {
        name: "one-hour",
        calls: Calls::Bids(Bids::OneHour),
        count: 100000,
    },
    Load {
        name: "first-hour",
        calls: Calls::Bids(Bids::FirstHour),
        count: 100000,
    },
    Load {
        name: "nominate-few",
        calls: Calls::Nominations(Rights::Five),
        count: 100000,
    },
    Load {
        name: "nominate-many",
        calls: Calls::Nominations(Rights::Full),
        count: 100000,
    },
    Load {
        name: "confirmed-few",
        calls: Calls::Confirmed(Rights::Five),
        count: 100000,
    },
    Load {
        name: "confirmed-many",
        calls: Calls::Confirmed(Rights::Full),
        count: 100000,
    },
    Load {
        name: "left",
        calls: Calls::Left,
        count: 20000000,
    },
    Load {
        name: "right",
        calls: Calls::Right,
        count: 20000000,
    },
];

// Mixed bids, bids for one-hour sessions and bids for a session's first hour alone begin with no right.
fn rights_of(calls: Calls) -> Option<Rights> {
    match calls {
        Calls::Bids(Bids::Mixed | Bids::OneHour | Bids::FirstHour) => None,
        Calls::Bids(Bids::Standing | Bids::Full) | Calls::Left | Calls::Right => Some(Rights::Full),
        Calls::Nominations(rights) | Calls::Confirmed(rights) => Some(rights),
    }
}

// ---- printing

// A line for each answer that occurred.
fn print_answers(rt: &impl Print, tally: &Tally) -> io::Result<()> {
    for (number, calls) in tally.answers.iter().enumerate() {
        if *calls > 0 {
            println!(rt; "{calls} bids with answer {number}")?;
        }
    }
    Ok(())
}

fn print_bids(rt: &impl Print, set_up: &Tally, tally: &Tally) -> io::Result<()> {
    println!(rt; "{} calls of set-up and offers granted", set_up.answers[0])?;
    print_answers(rt, tally)
}

// ---- loads

// The sum of the answers. The tally is of bids only.
fn make_calls(tallied: &mut TalliedBook, load: Load) -> u32 {
    match load.calls {
        Calls::Bids(bids @ (Bids::OneHour | Bids::FirstHour)) => {
            tallied.make_rounds_of_bids(bids, load.count)
        }
        Calls::Bids(bids) => tallied.make_bids(bids, load.count),
        Calls::Nominations(rights) => callrate_books::make_nominations(
            tallied.book,
            rights,
            load.count,
        ),
        Calls::Confirmed(rights) => read_loads::confirmed(tallied.book, rights, load.count),
        Calls::Left => read_loads::left(tallied.book, load.count),
        Calls::Right => read_loads::right(tallied.book, load.count),
    }
}

fn run(rt: &impl Print, load: Load) -> io::Result<()> {
    let rights = rights_of(load.calls);
    let mut book = [0u32; cells::CELLS];
    let set_up = callrate_books::fill(&mut book, rights);
    let mut tallied = TalliedBook::new(&mut book);
    let sum = make_calls(&mut tallied, load);
    if matches!(load.calls, Calls::Bids(Bids::Mixed)) {
        print_bids(rt, &set_up, &tallied.tally)?;
    }
    println!(rt; "{}: {} calls, sum {sum}", load.name, load.count)
}

// The load of that name, or all of them where there is no word.
fn run_named(rt: &impl Print, word: Option<&[u8]>) -> io::Result<()> {
    for load in &LOADS {
        if word.is_none_or(|word| word == load.name.as_bytes()) {
            run(rt, *load)?;
        }
    }
    Ok(())
}

fn main(rt: HostRuntime) -> io::Result<()> {
    // `env::args` would allocate, and this program has no heap. An empty word or one longer than the buffer counts as none.
    let mut buffer = [0u8; 16];
    let word = rt.arg(1, &mut buffer).ok().map(|n| &buffer[..n]);
    run_named(&rt, word.filter(|word| !word.is_empty()))
}
