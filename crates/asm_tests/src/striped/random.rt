//! Puts in random orders by four threads, against a plain model.
ghost use Rattle.std.specs.Prelude.{◌≡◌, ◌<◌};

use super::*;
use std::thread::Threads;

const LOCATIONS: usize = 4;

const PUTS: u64 = 24;

/// The least and the greatest code at each location, as one thread alone finds them.
#[derive(Drop)]
struct Plain {
    least: [u64; 4],
    greatest: [u64; 4],
}

/// What a lane puts: a location and two codes, the low not above the high.
fn draw(round: u64, lane: u64, i: u64) -> (usize, u64, u64)
    ensures { result.0 < 4 }
{
    let seed = round
        .wrapping_mul(1_000)
        .wrapping_add(lane.wrapping_mul(100))
        .wrapping_add(i);
    let mixed = seed
        .wrapping_mul(6_364_136_223_846_793_005)
        .wrapping_add(1_442_695_040_888_963_407);
    let mixed = (mixed ^ (mixed >> 29)).wrapping_mul(13_787_848_793_156_543_929);
    let low = ((mixed >> 8) % 5_000).wrapping_add(1);
    let high = low.wrapping_add((mixed >> 32) % 3_000);
    ((mixed % 4) as usize, low, high)
}

fn put_lane(table: &Striped, mut seat: StripeSeat, round: u64, lane: u64) -> StripeSeat
    requires { (seat.table ≡ table.now.table) × (table.now.count ≡ 4) }
    ensures { (result.table ≡ seat.table) × (result.parts ≡ seat.parts) }
{
    for i in 0..PUTS {
        let (n, low, high) = draw(round, lane, i);
        let _met = put_codes(table, &mut seat, lane, n, low, high);
    }
    seat
}

fn put_by_two<R: Threads + Sync>(
    rt: &R,
    table: &Striped,
    first: StripeSeat,
    second: StripeSeat,
    round: u64,
    lane: u64,
) -> (StripeSeat, StripeSeat)
    requires first { (first.table ≡ table.now.table) × (table.now.count ≡ 4) }
    requires second { second.table ≡ table.now.table }
    ensures first { (result.0.table ≡ first.table) × (result.0.parts ≡ first.parts) }
    ensures second { (result.1.table ≡ second.table) × (result.1.parts ≡ second.parts) }
{
    let next = lane.wrapping_add(1);
    join(
        rt,
        move || -> StripeSeat
            requires { (first.table ≡ table.now.table) × (table.now.count ≡ 4) }
            ensures { (result.table ≡ first.table) × (result.parts ≡ first.parts) }
        { put_lane(table, first, round, lane) },
        move || -> StripeSeat
            requires { (second.table ≡ table.now.table) × (table.now.count ≡ 4) }
            ensures { (result.table ≡ second.table) × (result.parts ≡ second.parts) }
        { put_lane(table, second, round, next) },
    )
}

/// What four threads put, two of them started by each of two.
fn summary_of_four<R: Threads + Sync>(
    rt: &R,
    alloc: Global,
    round: u64,
) -> Result<Summary, AllocError> {
    let (table, mut a) = Striped::open(alloc, LOCATIONS, 4)?;
    let b = table.split(&mut a);
    let c = table.split(&mut a);
    let d = table.split(&mut a);
    let shared = &table;
    let ((mut a, b), (c, d)) = join(
        rt,
        move || -> (StripeSeat, StripeSeat)
            requires { (a.table ≡ shared.now.table) × (b.table ≡ shared.now.table) × (shared.now.count ≡ 4) }
            ensures { (result.0.table ≡ a.table) × (result.0.parts ≡ a.parts) × (result.1.table ≡ b.table) × (result.1.parts ≡ b.parts) }
        { put_by_two(rt, shared, a, b, round, 0) },
        move || -> (StripeSeat, StripeSeat)
            requires { (c.table ≡ shared.now.table) × (d.table ≡ shared.now.table) × (shared.now.count ≡ 4) }
            ensures { (result.0.table ≡ c.table) × (result.0.parts ≡ c.parts) × (result.1.table ≡ d.table) × (result.1.parts ≡ d.parts) }
        { put_by_two(rt, shared, c, d, round, 2) },
    );
    table.join(&mut a, b);
    table.join(&mut a, c);
    table.join(&mut a, d);
    let summary = table.close(alloc, a)?;
    Ok(summary)
}

/// The same puts, one after another.
fn plain_puts(round: u64) -> Plain {
    let mut plain = Plain {
        least: [u64::MAX; 4],
        greatest: [0; 4],
    };
    for lane in 0..4u64 {
        for i in 0..PUTS {
            let (n, low, high) = draw(round, lane, i);
            if n < 4 {
                plain.least[n] = plain.least[n].min(low);
                plain.greatest[n] = plain.greatest[n].max(high);
            }
        }
    }
    plain
}

/// Whether a summary has the codes of the model. A location that nobody put into has none.
fn is_as_plain(summary: &Summary, plain: &Plain) -> bool {
    for n in 0..4usize {
        let named = plain.least[n] < u64::MAX;
        if named != has_bounds(summary, n, plain.least[n], plain.greatest[n]) {
            return false;
        }
        if named != summary.get(n).is_some() {
            return false;
        }
    }
    true
}

#[test]
fn a_hundred_random_orders(rt: HostRuntime) -> Result<(), Fail> {
    for round in 0..100u64 {
        let summary = summary_of_four(&rt, rt.alloc(), round)?;
        assert!(rt; is_as_plain(&summary, &plain_puts(round)));
    }
    Ok(())
}
