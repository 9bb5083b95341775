// What is refused, with which number and place, and that a refusal leaves the buffer.
use crate::common::{
    Answer, CHAIN, LIST, MARK, NO_TYPE, OLD_BYTE, OLD_NODE, TREE, answer_of, bare, node, refused,
    shapes, then_old,
};
use packed::{Fault, pack, unpack};
use std::alloc::Global;
use std::fmt::Debug;
use std::process::Abort;
use std::test::*;

// Bytes or nodes that are refused as a tree of a type, with a buffer for so many of the other.
#[derive(Clone, Copy)]
struct Bad<'a, S> {
    ty: u8,
    word: &'a [S],
    room: usize,
    answer: Answer,
}

impl<S> Bad<'_, S> {
    fn test<T: Copy + PartialEq + Debug, C: FnOnce(&mut [T]) -> Result<usize, Fault>>(
        &self,
        rt: &impl Abort,
        heap: Global,
        old: T,
        call: C,
    ) -> Result<(), Fail>
        requires { C.IsAlwaysCallable call }
    {
        let mut out = then_old(heap, &[], old, self.room)?;
        let before = then_old(heap, &[], old, self.room)?;
        let got = answer_of(call(out.as_mut_slice()));
        assert_eq!(rt; got, self.answer);
        assert_eq!(rt; out, before);
        Ok(())
    }
}

#[test]
fn bad_bytes(rt: HostRuntime) -> Result<(), Fail> {
    let shapes = shapes()?;
    let cases = [
        // a type that there is not, before anything else is looked at
        Bad {
            ty: NO_TYPE,
            word: &[200],
            room: 0,
            answer: refused(32, 0),
        },
        // a tag that no constructor has, and one of another type
        Bad {
            ty: CHAIN,
            word: &[8, 8, 9],
            room: 4,
            answer: refused(43, 2),
        },
        Bad {
            ty: CHAIN,
            word: &[8, 4],
            room: 4,
            answer: refused(43, 1),
        },
        // too short: nothing at all, a missing subtree, and within an integer
        Bad {
            ty: LIST,
            word: &[],
            room: 4,
            answer: refused(43, 0),
        },
        Bad {
            ty: CHAIN,
            word: &[8, 8],
            room: 4,
            answer: refused(43, 2),
        },
        Bad {
            ty: MARK,
            word: &[2, 0, 0, 0, 0, 0, 0, 0],
            room: 4,
            answer: refused(43, 8),
        },
        // too long, by a byte that might begin a tree
        Bad {
            ty: LIST,
            word: &[0, 0],
            room: 4,
            answer: refused(43, 1),
        },
        // a buffer one node too short
        Bad {
            ty: CHAIN,
            word: &[8, 8, 7],
            room: 2,
            answer: refused(53, 0),
        },
    ];
    for case in &cases {
        case.test(&rt, rt.alloc(), OLD_NODE, |out| {
            unpack(&shapes, case.ty, case.word, out)
        })?;
    }
    Ok(())
}

#[test]
fn bad_nodes(rt: HostRuntime) -> Result<(), Fail> {
    let shapes = shapes()?;
    let cases = [
        Bad {
            ty: NO_TYPE,
            word: &[],
            room: 0,
            answer: refused(32, 0),
        },
        Bad {
            ty: TREE,
            word: &[bare(6), bare(4), bare(64)],
            room: 40,
            answer: refused(43, 2),
        },
        Bad {
            ty: TREE,
            word: &[bare(6), bare(2)],
            room: 40,
            answer: refused(43, 1),
        },
        // an integer behind those that the constructor has
        Bad {
            ty: MARK,
            word: &[node(2, [5, 0, 0, 1])],
            room: 40,
            answer: refused(43, 0),
        },
        Bad {
            ty: CHAIN,
            word: &[bare(8), node(7, [1, 0, 0, 0])],
            room: 40,
            answer: refused(43, 1),
        },
        Bad {
            ty: LIST,
            word: &[],
            room: 40,
            answer: refused(43, 0),
        },
        Bad {
            ty: LIST,
            word: &[bare(1), node(2, [1, 0, 0, 0])],
            room: 40,
            answer: refused(43, 2),
        },
        Bad {
            ty: LIST,
            word: &[bare(0), bare(0)],
            room: 40,
            answer: refused(43, 1),
        },
        Bad {
            ty: MARK,
            word: &[node(2, [5, 0, 0, 0])],
            room: 8,
            answer: refused(53, 0),
        },
    ];
    for case in &cases {
        case.test(&rt, rt.alloc(), OLD_BYTE, |out| {
            pack(&shapes, case.ty, case.word, out)
        })?;
    }
    Ok(())
}
