//! Lists of calls to a set of runs, for both ways to keep it. The longer results come from a separate model, a plain
//! set of numbers with a floor.
//!
//! A word is `start`, `mark` or `raise` with a number. After the number there may be a step up or down and how many
//! such calls there are: `mark=0+2*1024` marks every second number from 0 to 2,046. Each mark is made twice, which
//! changes nothing.
use run_list::{PlainRuns, RunCall, RunList, Runs, replay_runs};
use seq_circle::Seq48;
use std::test::Fail;

// Each list, how many marks are New, and the floor in the end.
const LISTS: [(&str, u32, u64); 41] = [
    ("start=10", 0, 10),
    ("mark=0", 1, 0),
    ("start=10 mark=12", 1, 10),
    ("start=10 mark=10+1*3", 3, 10),
    ("start=10 mark=12-1*3", 3, 10),
    ("start=10 mark=10 mark=12 mark=11", 3, 10),
    ("start=10 mark=10 mark=20 mark=15 mark=15", 3, 10),
    ("start=10 mark=9 mark=10", 1, 10),
    (
        "start=10 mark=10 mark=12 mark=12 mark=9 raise=11 mark=10 mark=11",
        3,
        11,
    ),
    ("start=10 mark=140737488355338", 0, 10),
    ("start=10 mark=140737488355337", 1, 140_737_488_353_290),
    ("start=10 mark=2057 mark=2058 mark=10 mark=11", 3, 11),
    ("start=10 mark=10+1*2 mark=2058 mark=10", 3, 11),
    (
        "start=281474976710654 mark=281474976710654+1*4",
        4,
        281_474_976_710_654,
    ),
    (
        "start=281474976710654 mark=1-1*4 raise=0 mark=281474976710655",
        4,
        0,
    ),
    (
        "start=10 mark=10+1*3 mark=20+1*3 raise=21 mark=20 mark=21",
        6,
        21,
    ),
    (
        "start=10 mark=10+1*3 mark=20+1*3 raise=30 mark=29 mark=30",
        7,
        30,
    ),
    (
        "start=10 mark=10+2*3 raise=12 mark=11 mark=12 mark=13",
        4,
        12,
    ),
    (
        "start=10 mark=10+2*3 raise=13 raise=11 mark=12 mark=13",
        4,
        13,
    ),
    ("start=10 mark=10+2*3 raise=10 raise=9 mark=9", 3, 10),
    ("start=10 mark=20 raise=20 mark=19 mark=20 mark=21", 2, 20),
    ("start=10 mark=20+1*5 raise=22 mark=21 mark=25", 6, 22),
    ("mark=0+1*2048 mark=0+1*2048", 2_048, 0),
    ("mark=2047-1*2048 mark=2047-1*2048", 2_048, 0),
    ("mark=0+2*1024 mark=1+2*1024", 2_048, 0),
    ("mark=0+2*1024 mark=2047-2*1024", 2_048, 0),
    ("mark=2046-2*1024 mark=1+2*1024", 2_048, 0),
    ("mark=2046-2*1024 mark=2047-2*1024 mark=5", 2_048, 0),
    (
        "mark=0+2*1024 raise=1024 mark=1025+2*512 mark=2048+2*512",
        2_048,
        1_024,
    ),
    ("mark=0+2*1024 raise=2046 mark=2047+2*1023", 2_047, 2_046),
    ("mark=0+2*2000 mark=1+2*2000", 3_025, 1_952),
    ("mark=0+3*700 mark=1+3*700 mark=2+3*700", 2_066, 52),
    (
        "mark=0+2*1024 start=7 mark=7+2*1024 mark=8+2*1023",
        3_071,
        7,
    ),
    ("mark=0+2047*20 mark=0+2047*20", 20, 36_846),
    ("mark=0+2048*20 mark=1+2048*20", 22, 36_866),
    (
        "start=281474976709655 mark=281474976709655+2*1024 mark=281474976709656+2*1024",
        2_048,
        281_474_976_709_655,
    ),
    (
        "start=281474976709655 mark=1045-2*1024 raise=0 mark=1046-2*1024",
        1_548,
        0,
    ),
    (
        "start=1000 mark=1036 mark=984+1*16 mark=1040+2*11 mark=1021 mark=1033 mark=1054 mark=992 mark=1058 mark=1020 mark=1055 mark=1011-3*24 mark=1032 mark=1025 mark=1046 mark=1049 mark=1023 mark=1027 mark=1048 mark=1035 raise=1003 mark=1050 mark=1026-1*22 mark=1058+3*13 mark=1000",
        53,
        1_003,
    ),
    (
        "start=281474976710625 mark=8 mark=1 mark=5 raise=281474976710574 mark=281474976710612 mark=46 mark=281474976710643 mark=281474976710605 mark=0+3*9 mark=281474976710652 mark=17 mark=281474976710621 mark=23 mark=26 mark=281474976710642 mark=9 mark=281474976710631 mark=281474976710628 mark=24 mark=46 mark=281474976710653 mark=14 mark=7 mark=16",
        25,
        281_474_976_710_625,
    ),
    (
        "start=5000 mark=6309 mark=5068 mark=5496+1*15 mark=5270-1*35 mark=6057-1*28 mark=5211 mark=6571 mark=7967+3*19 mark=5881 mark=5329 mark=6120+1*2 mark=6421-2*37 raise=3940 raise=6245 mark=5198 mark=6920 mark=7215 mark=7281 mark=7428 mark=5138 mark=7267 mark=5185-2*16 raise=3605 mark=6748+2*16",
        161,
        6_245,
    ),
    (
        "start=70000 mark=73130 mark=73388 mark=71946+3*32 mark=71716-3*30 mark=71441 mark=70018 mark=71085 mark=72801 mark=73567 mark=72756+1*21 mark=71474 mark=72434 mark=75149 mark=71101 mark=72728 mark=71876 mark=75926 mark=70191-3*25 mark=74305-3*31 mark=71432 mark=73619 mark=70061 mark=71916 mark=70309 mark=72622 mark=71784+2*33 mark=74970 mark=73204-1*24 mark=70966-3*14 mark=72183-1*39",
        123,
        73_879,
    ),
];

// A number, a step up or down, and how many such calls there are.
#[derive(Clone, Copy)]
struct Steps {
    first: Seq48,
    up: bool,
    by: u64,
    times: u64,
}

// The number of these digits.
fn number_of(digits: &str) -> u64 {
    let mut number = 0_u64;
    for digit in digits.as_bytes() {
        number = number.wrapping_mul(10);
        number = number.wrapping_add(u64::from(*digit & 0x0f));
    }
    number
}

fn steps_of(first: &str, up: bool, by: &str, times: &str) -> Option<Steps> {
    let first = Seq48::new(number_of(first))?;
    Some(Steps {
        first,
        up,
        by: number_of(by),
        times: number_of(times),
    })
}

fn read_steps(text: &str) -> Option<Steps> {
    let Some((from, times)) = text.split_once("*") else {
        return steps_of(text, true, "0", "1");
    };
    match from.split_once("+") {
        Some((first, by)) => steps_of(first, true, by, times),
        None => {
            let (first, by) = from.split_once("-")?;
            steps_of(first, false, by, times)
        }
    }
}

fn mark_each<R: Runs>(set: &mut R, steps: &Steps) -> u32 {
    let mut new = 0_u32;
    let mut number = steps.first;
    for _ in 0..steps.times {
        let twice = [RunCall::Mark(number), RunCall::Mark(number)];
        new = new.saturating_add(replay_runs(set, &twice));
        number = if steps.up {
            number.add(steps.by)
        } else {
            number.sub(steps.by)
        };
    }
    new
}

// How many marks are New. None means that a word is none of these; no list has such a word.
fn make<R: Runs>(set: &mut R, word: &str) -> Option<u32> {
    let (call, numbers) = word.split_once("=")?;
    let steps = read_steps(numbers)?;
    match call {
        "start" => Some(replay_runs(set, &[RunCall::Start(steps.first)])),
        "raise" => Some(replay_runs(set, &[RunCall::Raise(steps.first)])),
        "mark" => Some(mark_each(set, &steps)),
        _ => None,
    }
}

fn make_all<R: Runs>(set: &mut R, list: &str) -> Option<u32> {
    let mut new = 0_u32;
    for word in list.split_whitespace() {
        new = new.saturating_add(make(set, word)?);
    }
    Some(new)
}

// Whether a list has these new marks and this floor. None is no result of a list.
fn comes<R: Runs>(set: &mut R, list: &str, new: u32, floor: u64) -> Option<bool> {
    set.start(Seq48::new(0)?);
    Some(make_all(set, list)? == new && set.floor().get() == floor)
}

fn each_comes<R: Runs>(set: &mut R, lists: &[(&str, u32, u64)]) -> Result<(), Fail> {
    for (list, new, floor) in lists {
        if !matches!(comes(set, *list, *new, *floor), Some(true)) {
            return Err(Fail::new(format_args!("{list}")));
        }
    }
    Ok(())
}

// A function apart, because a proof follows a table through each step of the function that names it.
fn all_come<R: Runs>(set: &mut R) -> Result<(), Fail> {
    each_comes(set, &LISTS)
}

fn has_one_run(set: &RunList, last: u64, count: u16) -> bool {
    match set.walk().next() {
        Some(run) => run.hi.get() == last && run.count == count,
        None => false,
    }
}

// Whether the last mark, 2, joins the runs on both sides of it.
fn joins(set: &mut RunList) -> Option<bool> {
    set.start(Seq48::new(0)?);
    let marked = make_all(set, "mark=1 mark=3 mark=2")?;
    Some(marked == 3 && has_one_run(set, 3, 3))
}

fn all_come_linked(set: &mut RunList) -> Result<(), Fail> {
    all_come(set)?;
    if !matches!(joins(set), Some(true)) {
        return Err(Fail::from("joined runs"));
    }
    Ok(())
}

#[test]
fn full_linked_sets(rt: HostRuntime) -> Result<(), Fail> {
    all_come_linked(&mut RunList::new(rt.alloc())?)
}

#[test]
fn full_plain_sets(rt: HostRuntime) -> Result<(), Fail> {
    all_come(&mut PlainRuns::new(rt.alloc())?)
}
