use cd_feed::write_feed;
use cd_gen::make_feed;
use sha2::{Digest, Sha256};
use std::alloc::Global;
use std::test::Fail;

// The length and the SHA-256 of the text of a feed, from a generator in another language.
const LENGTH: usize = 1_888_985;

const SEVEN: &str = "3195542d3818616541019fe1f1bb0860b306cb570b0430ac297487c0a8b77dd4";

#[test]
fn the_feed_of_7_is_the_reference_s(rt: HostRuntime) -> Result<(), Fail> {
    let alloc = rt.alloc();
    let feed = make_feed(alloc, 7)?;
    let text = write_feed(alloc, &feed)?;
    let hash = hex::decode(alloc, SEVEN)?;
    assert_eq!(rt; text.len(), LENGTH);
    assert!(rt; Sha256::digest(&text).as_slice() == hash.as_slice());
    Ok(())
}
