//! That samples are found, with the texts that were worked out by hand.

use crate::sample;
use std::test;

#[test]
fn sample_3_has_its_texts(rt: HostRuntime) -> Result<(), test::Fail> {
    let files = sample(rt.alloc(), 3)?;
    let script = b"cycles 124\na send 83\na send 195\na send 125\nb take all\n";
    assert_eq!(rt; files.script.as_slice(), script.as_slice());
    let stalls =
        b"capacity 25\ndrain 1 1\ndrain 7 1\ndrain 5 1\ndrain 6 1\ndrain 8 1\ndrain 1 1\ndrain 8 1\ndrain 6 1\n";
    assert_eq!(rt; files.stalls.as_slice(), stalls.as_slice());
    assert_eq!(rt; (files.stages, files.sends, files.cycles), (4, 3, 124));
    Ok(())
}
