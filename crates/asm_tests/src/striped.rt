//! What seats find of each other's puts, and what comes of puts by several threads.
ghost use Rattle.std.specs.Prelude.{◌≡◌, ◌<◌, ◌≤◌};

use asm_state::word::Word;
use asm_striped::{StripeSeat, Striped, WordsBefore};
use asm_updates::summary::Summary;
use std::alloc::{AllocError, Global};
use std::test::Fail;
use std::thread::join;

mod random;

const MAX_TURNS: u64 = 100_000_000;

/// Puts two codes, or nothing if they are none.
fn put_codes(
    table: &Striped,
    seat: &mut StripeSeat,
    task: u64,
    n: usize,
    low: u64,
    high: u64,
) -> Option<WordsBefore>
    requires table { seat.old.table ≡ table.now.table }
    requires location { n < table.now.count }
    ensures { (seat.new.table ≡ seat.old.table) × (seat.new.parts ≡ seat.old.parts) }
{
    let Some(_least) = Word::from_code(low) else {
        return None;
    };
    let Some(_greatest) = Word::from_code(high) else {
        return None;
    };
    if high < low {
        return None;
    }
    Some(table.put(seat, task, n, low, high))
}

/// Whether a location has the values with these codes for its bounds.
fn has_bounds(summary: &Summary, n: usize, low: u64, high: u64) -> bool {
    let Some((least, greatest)) = summary.get(n) else {
        return false;
    };
    least.code() == low && greatest.code() == high
}

fn met(low_before: u64, high_before: u64) -> Option<WordsBefore> {
    Some(WordsBefore {
        low_before,
        high_before,
    })
}

/// What three puts of two seats met at one location of two, and the summary of all.
fn met_by_two(alloc: Global) -> Result<([Option<WordsBefore>; 3], Summary), AllocError> {
    let (table, mut s) = Striped::open(alloc, 2, 2)?;
    let mut t = table.split(&mut s);
    let first = put_codes(&table, &mut s, 0, 1, 7, 7);
    let second = put_codes(&table, &mut t, 1, 1, 3, 5);
    let third = put_codes(&table, &mut s, 0, 1, 4, 9);
    table.join(&mut s, t);
    let summary = table.close(alloc, s)?;
    Ok(([first, second, third], summary))
}

#[test]
fn seats_meet(rt: HostRuntime) -> Result<(), Fail> {
    let (met_in_turn, summary) = met_by_two(rt.alloc())?;
    let nothing_there = met(18_446_744_073_709_551_615, 0);
    assert!(rt; met_in_turn == [nothing_there, met(7, 7), met(3, 7)]);
    assert!(rt; summary.count() == 2 && summary.len() == 1);
    assert!(rt; has_bounds(&summary, 1, 3, 9));
    Ok(())
}

/// Puts a thousand codes from `first` on, rising or falling. The result tells whether it found a
/// code of the other thread, which begins with `other`.
fn put_thousand(
    table: &Striped,
    mut seat: StripeSeat,
    first: u64,
    rising: bool,
    other: u64,
) -> (StripeSeat, bool)
    requires table { (seat.table ≡ table.now.table) × (0 < table.now.count) }
    ensures { (result.0.table ≡ seat.table) × (result.0.parts ≡ seat.parts) }
{
    let mut found = false;
    for i in 0..1000u64 {
        let step = if rising { i } else { 999u64.wrapping_sub(i) };
        let code = first.wrapping_add(step);
        if let Some(met) = put_codes(table, &mut seat, 0, 0, code, code)
            && (met.low_before == other || met.high_before == other)
        {
            found = true;
        }
    }
    (seat, found)
}

#[test]
fn rising_and_falling_puts(rt: HostRuntime) -> Result<(), Fail> {
    let (table, mut s) = Striped::open(rt.alloc(), 1, 2)?;
    let t = table.split(&mut s);
    let shared = &table;
    let ((mut s, s_found), (t, t_found)) = join(
        &rt,
        move || -> (StripeSeat, bool)
            requires { (s.table ≡ shared.now.table) × (0 < shared.now.count) }
            ensures { (result.0.table ≡ s.table) × (result.0.parts ≡ s.parts) }
        { put_thousand(shared, s, 1000, true, 2999) },
        move || -> (StripeSeat, bool)
            requires { (t.table ≡ shared.now.table) × (0 < shared.now.count) }
            ensures { (result.0.table ≡ t.table) × (result.0.parts ≡ t.parts) }
        { put_thousand(shared, t, 2000, false, 1000) },
    );
    table.join(&mut s, t);
    let summary = table.close(rt.alloc(), s)?;
    assert!(rt; s_found || t_found);
    assert_eq!(rt; summary.count(), 1);
    assert!(rt; has_bounds(&summary, 0, 1000, 2999));
    Ok(())
}

/// Puts a code until a result is as wanted. False after too many turns.
fn put_until<F: Fn(WordsBefore) -> bool>(
    table: &Striped,
    mut seat: StripeSeat,
    code: u64,
    wanted: F,
) -> (StripeSeat, bool)
    requires table { (seat.table ≡ table.now.table) × (0 < table.now.count) }
    requires wanted { F.IsAlwaysCallable wanted }
    ensures { (result.0.table ≡ seat.table) × (result.0.parts ≡ seat.parts) }
{
    for _ in 0..MAX_TURNS {
        if let Some(met) = put_codes(table, &mut seat, 0, 0, code, code)
            && wanted(met)
        {
            return (seat, true);
        }
    }
    (seat, false)
}

#[test]
fn two_seats_meet(rt: HostRuntime) -> Result<(), Fail> {
    let (table, mut s) = Striped::open(rt.alloc(), 1, 2)?;
    let t = table.split(&mut s);
    let shared = &table;
    let ((mut s, s_met), (t, t_met)) = join(
        &rt,
        move || -> (StripeSeat, bool)
            requires { (s.table ≡ shared.now.table) × (0 < shared.now.count) }
            ensures { (result.0.table ≡ s.table) × (result.0.parts ≡ s.parts) }
        { put_until(shared, s, 5, |met| met.low_before == 3) },
        move || -> (StripeSeat, bool)
            requires { (t.table ≡ shared.now.table) × (0 < shared.now.count) }
            ensures { (result.0.table ≡ t.table) × (result.0.parts ≡ t.parts) }
        { put_until(shared, t, 3, |met| met.high_before == 5) },
    );
    table.join(&mut s, t);
    let summary = table.close(rt.alloc(), s)?;
    assert!(rt; s_met && t_met);
    assert_eq!(rt; summary.count(), 1);
    assert!(rt; has_bounds(&summary, 0, 3, 5));
    Ok(())
}

/// How many locations are named when nothing was put.
fn named_in_unused(alloc: Global, count: usize) -> Result<usize, AllocError>
    requires { count ≤ 1000 }
{
    let (table, seat) = Striped::open(alloc, count, 1)?;
    let summary = table.close(alloc, seat)?;
    Ok(summary.len())
}

#[test]
fn unused_tables(rt: HostRuntime) -> Result<(), Fail> {
    assert_eq!(rt; named_in_unused(rt.alloc(), 0)?, 0);
    assert_eq!(rt; named_in_unused(rt.alloc(), 1)?, 0);
    assert_eq!(rt; named_in_unused(rt.alloc(), 1000)?, 0);
    Ok(())
}

/// Opens a table, puts into it and closes it. The result is whether it is right, or a refusal.
fn opens_and_closes(alloc: Global) -> Result<bool, AllocError> {
    let (table, mut seat) = Striped::open(alloc, 20, 1)?;
    for n in 0..20usize {
        let _met = put_codes(&table, &mut seat, 0, n, 3, 9);
    }
    let summary = table.close(alloc, seat)?;
    Ok(summary.len() == 20 && has_bounds(&summary, 19, 3, 9))
}

#[test]
fn a_refusal_is_the_answer(rt: HostRuntime) -> Result<(), Fail> {
    assert!(rt; opens_and_closes(rt.alloc()).unwrap_or(true));
    Ok(())
}
