// The clock record that all cases start with, and what they leave of it.
use machine::Clock;

// The clock is two steps before it wraps; each count has a value of its own, and that of cooperative 7 is one step before it wraps.
pub fn start() -> Clock {
    Clock {
        common: 4294967294,
        counts: [
            100, 101, 102, 103, 104, 105, 106, 4294967295, 108, 109, 110, 111, 112, 113, 114, 115,
        ],
    }
}

// The clock and the cooperative's count, and whether the others are as they were.
pub fn print(rt: &impl Print, cooperative: u32, before: Clock, after: Clock) {
    let own = cooperative as usize;
    let common = after.common;
    let _ = print!(rt; ", clock {common}");
    let _ = match after.counts.get(own) {
        Some(count) => print!(rt; ", count {count}"),
        None => print!(rt; ", no count"),
    };
    let kept = before
        .counts
        .iter()
        .zip(&after.counts)
        .enumerate()
        .all(|(i, (old, new))| i == own || old == new);
    let others = if kept { "kept" } else { "changed" };
    let _ = println!(rt; ", others {others}");
}

// The whole record.
pub fn print_all(rt: &impl Print, name: &str, clock: Clock) {
    let common = clock.common;
    let _ = print!(rt; "{name}: clock {common}, counts");
    case_output::counts(rt, clock.counts);
    let _ = println!(rt; "");
}
