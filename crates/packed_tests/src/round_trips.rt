// Trees packed and unpacked, and what stands behind them in the buffers.
use crate::common::{
    CHAIN, LIST, MARK, OLD_BYTE, OLD_NODE, TREE, answer_of, bare, node, shapes, then_old,
};
use packed::{Fault, Node, Shapes, pack, unpack};
use std::alloc::Global;
use std::fmt::Debug;
use std::process::Abort;
use std::test::*;

// How much of each buffer lies behind the tree.
const SPARE: usize = 3;

// A tree of a type in both its forms.
#[derive(Clone, Copy)]
struct Pair<'a> {
    ty: u8,
    nodes: &'a [Node],
    bytes: &'a [u8],
}

// That a call writes this word at a buffer's front, and leaves what is behind it.
fn writes<T: Copy + PartialEq + Debug, C: FnOnce(&mut [T]) -> Result<usize, Fault>>(
    rt: &impl Abort,
    heap: Global,
    word: &[T],
    old: T,
    call: C,
) -> Result<(), Fail>
    requires { C.IsAlwaysCallable call }
{
    let mut out = then_old(heap, &[], old, word.len().saturating_add(SPARE))?;
    let wanted = then_old(heap, word, old, SPARE)?;
    let got = answer_of(call(out.as_mut_slice()));
    assert_eq!(rt; got, Ok(word.len()));
    assert_eq!(rt; out, wanted);
    Ok(())
}

fn goes_round(rt: &impl Abort, heap: Global, shapes: &Shapes, pair: Pair) -> Result<(), Fail> {
    writes(rt, heap, pair.bytes, OLD_BYTE, |out| {
        pack(shapes, pair.ty, pair.nodes, out)
    })?;
    writes(rt, heap, pair.nodes, OLD_NODE, |out| {
        unpack(shapes, pair.ty, pair.bytes, out)
    })
}

#[test]
fn small_trees(rt: HostRuntime) -> Result<(), Fail> {
    let shapes = shapes()?;
    let minus_one = [0xff, 0xff, 0xff, 0xff, 0xff, 0xff, 0xff, 0xff];
    let mut mark = [2u8; 9];
    mark[1..9].copy_from_slice(&minus_one);
    let pairs = [
        Pair {
            ty: LIST,
            nodes: &[bare(0)],
            bytes: &[0],
        },
        Pair {
            ty: MARK,
            nodes: &[node(2, [-1, 0, 0, 0])],
            bytes: &mark,
        },
        Pair {
            ty: TREE,
            nodes: &[bare(4)],
            bytes: &[4],
        },
        Pair {
            ty: CHAIN,
            nodes: &[bare(8), bare(8), bare(7)],
            bytes: &[8, 8, 7],
        },
    ];
    for pair in &pairs {
        goes_round(&rt, rt.alloc(), &shapes, *pair)?;
    }
    Ok(())
}

#[test]
fn integers_in_order(rt: HostRuntime) -> Result<(), Fail> {
    let shapes = shapes()?;
    let nodes = [node(3, [1, -2, i64::MAX, i64::MIN])];
    let bytes = [
        3, 1, 0, 0, 0, 0, 0, 0, 0, 0xfe, 0xff, 0xff, 0xff, 0xff, 0xff, 0xff, 0xff, 0xff, 0xff,
        0xff, 0xff, 0xff, 0xff, 0xff, 0x7f, 0, 0, 0, 0, 0, 0, 0, 0x80,
    ];
    goes_round(
        &rt,
        rt.alloc(),
        &shapes,
        Pair {
            ty: MARK,
            nodes: &nodes,
            bytes: &bytes,
        },
    )
}

#[test]
fn tree_of_three_types(rt: HostRuntime) -> Result<(), Fail> {
    let shapes = shapes()?;
    // four subtrees: an empty tree, a mark, a tree with a list, and an empty list
    let nodes = [
        bare(6),
        bare(4),
        node(2, [258, 0, 0, 0]),
        node(5, [3, 0, 0, 0]),
        bare(1),
        node(2, [0, 0, 0, 0]),
        bare(0),
        bare(4),
        bare(0),
    ];
    let bytes = [
        6, 4, 2, 2, 1, 0, 0, 0, 0, 0, 0, 5, 3, 0, 0, 0, 0, 0, 0, 0, 1, 2, 0, 0, 0, 0, 0, 0, 0, 0,
        0, 4, 0,
    ];
    goes_round(
        &rt,
        rt.alloc(),
        &shapes,
        Pair {
            ty: TREE,
            nodes: &nodes,
            bytes: &bytes,
        },
    )
}
