//! Of which size a load is.
ghost use Rattle.std.specs.Prelude.{IsTrue};
ghost use Rattle.warp_load.specs.LoadRanges.{is_load};

/// A load: a seed, how many connections there are, and how many requests each of them makes. The seed is at
/// most 4,294,967,295. There are 1 to 4,000 connections, 1 to 1,000 requests of each, and at most 20,000
/// requests in all.
#[derive(Clone, Copy, Debug)]
pub struct Load {
    pub seed: u64,
    pub connections: u64,
    pub requests: u64,
    pub ghost in_range: { IsTrue (is_load seed connections requests) },
}

/// The largest seed.
const SEED_LIMIT: u64 = 4_294_967_295;

/// The most connections.
const CONNECTION_LIMIT: u64 = 4000;

/// The most requests of one connection.
pub(crate) const REQUEST_LIMIT: u64 = 1000;

/// The most requests in all.
const TOTAL_LIMIT: u64 = 20_000;

impl Load {
    ghost use Rattle.std.specs.Prelude.{◌≡◌, ◌↔◌, IfSome, IsSome};

    /// The load of these numbers, or none where one of them is out of its range or there are too many
    /// requests in all.
    pub fn new(seed: u64, connections: u64, requests: u64) -> Option<Load>
        ensures when { IsSome result ↔ IsTrue (is_load seed connections requests) }
        ensures same { IfSome result (λ load.
            (load.seed ≡ seed) × (load.connections ≡ connections) × (load.requests ≡ requests)) }
    {
        let fits = seed <= SEED_LIMIT
            && (1..=CONNECTION_LIMIT).contains(&connections)
            && (1..=REQUEST_LIMIT).contains(&requests)
            && connections * requests <= TOTAL_LIMIT;
        if fits {
            Some(Load {
                seed,
                connections,
                requests,
            })
        } else {
            None
        }
    }
}
