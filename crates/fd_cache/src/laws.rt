//! What holds of every history of a cache. Each law is the contract of a function that does nothing.
ghost use Rattle.std.specs.Prelude.{List};
ghost use Rattle.fd_cache.specs.declared.deed.CacheDeed.{CacheDeed};
ghost use Rattle.fd_cache.specs.History.{IsCacheHistory};
ghost use Rattle.fd_cache.specs.Laws.{AccountsForLeases, GoesByPaths};

/// No two entries have one path, so that leases that are out and leases that came back are a path's.
pub fn histories_go_by_paths<L>()
    ensures { (past : List (CacheDeed L)) → IsCacheHistory past → GoesByPaths past }
{}

/// A lease that came back and was kept goes out again once, is closed once, or is there still.
pub fn histories_account_for_leases<L>()
    ensures { (past : List (CacheDeed L)) → IsCacheHistory past → AccountsForLeases past }
{}
