// Each limit of a description of types, at the first place that breaks it.
use crate::common::{LEAF, NONE};
use packed::{Fields, Limit, Shapes};
use std::test::*;

// The limit that a description breaks, if any.
fn broken(sizes: &[u8], fields: &[Fields]) -> Option<Limit> {
    Shapes::new(sizes, fields).err()
}

#[derive(Clone, Copy)]
struct Case<'a> {
    sizes: &'a [u8],
    fields: &'a [Fields],
    broken: Option<Limit>,
}

// Each count at its limit, and one past it.
const COUNTS: [Case<'static>; 8] = [
    Case {
        sizes: &[],
        fields: &[],
        broken: Some(Limit::TypeCount),
    },
    Case {
        sizes: &[1; 17],
        fields: &[LEAF; 17],
        broken: Some(Limit::TypeCount),
    },
    Case {
        sizes: &[1; 16],
        fields: &[LEAF; 16],
        broken: None,
    },
    Case {
        sizes: &[1, 0],
        fields: &[LEAF],
        broken: Some(Limit::TypeSize { of: 1 }),
    },
    Case {
        sizes: &[17],
        fields: &[LEAF; 17],
        broken: Some(Limit::TypeSize { of: 0 }),
    },
    Case {
        sizes: &[2, 1],
        fields: &[LEAF; 2],
        broken: Some(Limit::ConstructorCount),
    },
    Case {
        sizes: &[16; 5],
        fields: &[LEAF; 80],
        broken: Some(Limit::ConstructorCount),
    },
    Case {
        sizes: &[16; 4],
        fields: &[LEAF; 64],
        broken: None,
    },
];

#[test]
fn counts(rt: HostRuntime) -> Result<(), Fail> {
    for case in &COUNTS {
        assert_eq!(rt; broken(case.sizes, case.fields), case.broken);
    }
    Ok(())
}

#[test]
fn fields(rt: HostRuntime) -> Result<(), Fail> {
    let unfair = [
        // too many integers, too many subtrees
        Fields {
            integers: 5,
            subtrees: 0,
            types: [NONE; 4],
        },
        Fields {
            integers: 0,
            subtrees: 5,
            types: [0; 4],
        },
        // a subtree of no type, a type where there is no subtree
        Fields {
            integers: 0,
            subtrees: 2,
            types: [0, 1, NONE, NONE],
        },
        Fields {
            integers: 0,
            subtrees: 1,
            types: [0, NONE, NONE, 0],
        },
    ];
    for one in &unfair {
        assert_eq!(rt;
            broken(&[2], &[LEAF, *one]),
            Some(Limit::Constructor { number: 1 })
        );
    }
    let full = Fields {
        integers: 4,
        subtrees: 4,
        types: [0; 4],
    };
    assert_eq!(rt; broken(&[2], &[LEAF, full]), None);
    Ok(())
}
