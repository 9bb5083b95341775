// A row of a program, by its kind: docs/ROWS.md is the table that this follows, in order and names.

// Variables are x and y, locations l and m, a region r, a constructor `form`, a function f. All stay the numbers that the
// bytes say, also the row numbers `body`, `other` and `next`: what they name, if anything, is judged later.
#[derive(Clone, Copy, Debug, PartialEq, Eq)]
pub enum Row {
    Variable {
        x: u8,
    },
    Number {
        value: i64,
    },
    Sum {
        x: u8,
        y: u8,
    },
    Difference {
        x: u8,
        y: u8,
    },
    Region {
        r: u8,
        room: u16,
    },
    Start {
        l: u8,
        r: u8,
    },
    Past {
        l: u8,
        m: u8,
        k: u8,
    },
    After {
        l: u8,
        m: u8,
        t: u8,
    },
    // (Eight fields: definitions and contracts name each operand.)
    Construct {
        form: u8,
        l: u8,
        v0: u8,
        v1: u8,
        v2: u8,
        v3: u8,
        v4: u8,
        v5: u8,
        v6: u8,
        v7: u8,
    },
    Let {
        x: u8,
        kind: u8,
        l: u8,
        body: u16,
    },
    Test {
        x: u8,
        y: u8,
        other: u16,
    },
    Call {
        f: u8,
        l: u8,
        v0: u8,
        v1: u8,
        v2: u8,
        v3: u8,
    },
    Case {
        x: u8,
    },
    Branch {
        form: u8,
        x0: u8,
        l0: u8,
        next: u16,
    },
}
