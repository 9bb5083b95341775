// What a line is answered, and how that is written.
use packed::{Fault, Node};
use std::fmt;

#[derive(Drop)]
pub enum Answer {
    // the program is right
    Right,
    // the bytes of a tree
    Packed(Vec<u8>),
    // the nodes of a tree
    Unpacked(Vec<Node>),
    // the answers to calls of a store
    Told(Vec<Result<Told, Fault>>),
}

// What a store says to a call that it accepts. (No Option: a put is answered, by no number.)
#[derive(Clone, Copy)]
pub enum Told {
    Number(usize),
    // a put is done
    Done,
}

fn write_bytes<W: fmt::Write>(bytes: &[u8], f: &mut fmt::Formatter<W>) -> fmt::Result {
    if bytes.is_empty() {
        return write!(f, "-");
    }
    for byte in bytes {
        write!(f, "{byte:02x}")?;
    }
    Ok(())
}

fn write_node<W: fmt::Write>(node: &Node, f: &mut fmt::Formatter<W>) -> fmt::Result {
    let number = node.constructor;
    let [a, b, c, d] = node.integers;
    write!(f, "{number}:{a}:{b}:{c}:{d}")
}

fn write_told<W: fmt::Write>(told: &Result<Told, Fault>, f: &mut fmt::Formatter<W>) -> fmt::Result {
    match told {
        Ok(Told::Number(n)) => write!(f, "{n}"),
        Ok(Told::Done) => write!(f, "ok"),
        Err(fault) => {
            let number = fault.number();
            write!(f, "!{number}")
        }
    }
}

// Each item, with commas between them.
fn write_list<T, W: fmt::Write, F: Fn(&T, &mut fmt::Formatter<W>) -> fmt::Result>(
    items: &[T],
    write_item: F,
    f: &mut fmt::Formatter<W>,
) -> fmt::Result
    requires { F.IsAlwaysCallable write_item }
{
    for (i, item) in items.iter().enumerate() {
        if i > 0 {
            write!(f, ",")?;
        }
        write_item(item, f)?;
    }
    Ok(())
}

impl fmt::Display for Answer {
    fn fmt<W: fmt::Write>(&self, f: &mut fmt::Formatter<W>) -> fmt::Result {
        match self {
            Answer::Right => write!(f, "ok"),
            Answer::Packed(bytes) => {
                let long = bytes.len();
                write!(f, "ok {long} ")?;
                write_bytes(bytes, f)
            }
            Answer::Unpacked(nodes) if nodes.is_empty() => write!(f, "ok 0 -"),
            Answer::Unpacked(nodes) => {
                let count = nodes.len();
                write!(f, "ok {count} ")?;
                write_list(nodes, write_node, f)
            }
            Answer::Told(answers) => write_list(answers, write_told, f),
        }
    }
}
