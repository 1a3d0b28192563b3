//! Entries that are set, asked for and forgotten.
use crate::DirCache;
use node_words::Geometry;
use std::test::Fail;

// A directory of each depth, and what its entries are after each call. The hashes 5 and 5 + 2^16 have one index at each
// depth, 4 has another but at depth 0.
#[test]
fn entries_of_each_depth(rt: HostRuntime) -> Result<(), Fail> {
    for depth in 0..=16 {
        let geometry = Geometry::check(1, depth, 0, 1, 70000)?;
        let mut cache = DirCache::make(rt.alloc(), &geometry)?;
        let near = |table: u64| if depth == 0 { Some(table) } else { None };
        assert!(rt; cache.entry(5) == None, "at first {depth}");
        cache.refresh(5, 300);
        assert!(rt;
            cache.entry(5 + (1 << 16)) == Some(300),
            "refreshed {depth}"
        );
        assert!(rt; cache.entry(4) == near(300), "another {depth}");
        cache.forget(299);
        assert!(rt; cache.entry(5) == Some(300), "another forgotten {depth}");
        cache.refresh(4, 0);
        assert!(rt; cache.entry(4) == Some(0), "address 0 {depth}");
        cache.forget(300);
        assert!(rt; cache.entry(5) == near(0), "forgotten {depth}");
        cache.forget(u64::MAX);
        assert!(rt; cache.entry(4) == Some(0), "no address {depth}");
    }
    Ok(())
}
