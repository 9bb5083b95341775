// A tree as deep as it has bytes.
use crate::common::{CHAIN, OLD_BYTE, OLD_NODE, answer_of, shapes, then_old};
use packed::{pack, unpack};
use std::test::*;

const HEADS: usize = 32_768;

const LINK: u8 = 8;

const END: u8 = 7;

#[test]
fn each_head_inside_the_one_before(rt: HostRuntime) -> Result<(), Fail> {
    let shapes = shapes()?;
    let mut chain = vec![in rt.alloc(); LINK; HEADS - 1]?;
    chain.push(END)?;
    let mut nodes = then_old(rt.alloc(), &[], OLD_NODE, HEADS)?;
    let unpacked = answer_of(unpack(&shapes, CHAIN, &chain, nodes.as_mut_slice()));
    assert_eq!(rt; unpacked, Ok(HEADS));
    let mut again = then_old(rt.alloc(), &[], OLD_BYTE, HEADS)?;
    let packed = answer_of(pack(&shapes, CHAIN, &nodes, again.as_mut_slice()));
    assert_eq!(rt; packed, Ok(HEADS));
    assert!(rt; again == chain);
    Ok(())
}
