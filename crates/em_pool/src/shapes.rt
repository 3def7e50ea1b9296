//! How many events the pools have.
ghost use Rattle.std.specs.Prelude.{◌≡◌, ◌+◌, ◌<◌, ◌≤◌, length, take};
ghost use Rattle.em_log.specs.Declarations.{event_total};
ghost use Rattle.em_pool.specs.Places.{events_of};

use em_log::{PoolId, PoolShape};

/// How many events these pools have.
pub fn total(pools: &[PoolShape]) -> u16
    requires { event_total pools.now ≤ 4096 }
    ensures { result ≡ event_total pools.now }
{
    let mut total = 0;
    for pool in pools {
        total += pool.events;
    }
    total
}

/// The first index of a pool's events, and the index past its last one.
pub fn bounds_of(pools: &[PoolShape], pool: PoolId) -> (u16, u16)
    requires pool { pool.0 < length pools.now }
    requires few { event_total pools.now ≤ 4096 }
    ensures first { result.0 ≡ event_total (take pool.0 pools.now) }
    ensures end { result.1 ≡ event_total (take pool.0 pools.now) + events_of pools.now pool.0 }
    ensures within { result.1 ≤ event_total pools.now }
{
    let number = usize::from(pool.0);
    let first = total(&pools[..number]);
    (first, first + pools[number].events)
}
