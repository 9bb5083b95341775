// Layer 2, first part: whether numbers with a fixed meaning have one.
ghost use Rattle.std.specs.Prelude.{◌≡◌, ◌+◌, ◌*◌, ◌<◌, false, not, ◌&&◌, ◌||◌, drop, take, ◌==◌};
ghost use Rattle.table.specs.Sections.{in_range};
ghost use Rattle.std.specs.List.{list_all, slice_get};
ghost use Rattle.packed.specs.Forms.{either};
ghost use Rattle.packed.specs.Shaped.{forms_of};
ghost use Rattle.table.specs.Held.{functions_of};
ghost use Rattle.table.specs.Meaning.{is_kind, unused, main_like, fair_function, fair_form, fair_call, fair_branch, fair_row};

use crate::function::Function;
use crate::functions::Functions;
use crate::row::Row;
use packed::{Constructor, Shapes};

// The kind of an integer, and what stands in a place that is not used.
const INTEGER: u8 = 254;

const UNUSED: u8 = 255;

fn is_kind(types: usize, kind: u8) -> bool
    ensures value { result ≡ is_kind types kind }
{
    usize::from(kind) < types || kind == INTEGER
}

// Whether the used places all hold kinds.
fn used_kinds(types: usize, places: &[u8], used: usize) -> bool
    ensures value { result ≡ list_all (is_kind types) (take used places.now) }
{
    places.iter().take(used).all(|&place| is_kind(types, place))
}

// Whether the places behind the used ones all say so.
fn unused_behind(places: &[u8], used: usize) -> bool
    ensures value { result ≡ unused (drop used places.now) }
{
    places.iter().skip(used).all(|&place| place == UNUSED)
}

// Whether a function is like main: without a parameter, or with one tree.
fn is_main_like(types: usize, function: &Function) -> bool
    ensures value { result ≡ main_like types function.now }
{
    match function.parameters {
        0 => true,
        1 => usize::from(function.kinds[0]) < types,
        _ => false,
    }
}

pub fn is_fair_function(types: usize, number: usize, function: &Function) -> bool
    ensures value { result ≡ fair_function types number function.now }
{
    let used = usize::from(function.parameters);
    used <= 4
        && used_kinds(types, &function.kinds, used)
        && unused_behind(&function.kinds, used)
        && is_kind(types, function.result)
        && (number != 0 || is_main_like(types, function))
}

// Whether a construct's variables behind those of its constructor are unused.
fn is_fair_form(constructor: &Constructor, variables: [u8; 8]) -> bool
    ensures value { result ≡ fair_form constructor.now variables }
{
    let used = usize::from(constructor.fields.integers) + usize::from(constructor.fields.subtrees);
    unused_behind(&variables, used)
}

// Whether a call's variables behind those of its function are unused, and its location too for an integer.
fn is_fair_call(function: &Function, l: u8, variables: [u8; 4]) -> bool
    ensures value { result ≡ fair_call function.now l variables }
{
    unused_behind(&variables, usize::from(function.parameters))
        && (function.result != INTEGER || l == UNUSED)
}

// Whether a branch that binds nothing, or no tree, says 0 for what it would bind.
fn is_fair_branch(constructor: &Constructor, x0: u8, l0: u8) -> bool
    ensures value { result ≡ fair_branch constructor.now x0 l0 }
{
    let fields = &constructor.fields;
    let parts = usize::from(fields.integers) + usize::from(fields.subtrees);
    (parts > 0 || x0 == 0) && (fields.subtrees > 0 || l0 == 0)
}

// Whether a let of an integer, which lies nowhere, says so.
fn is_fair_let(types: usize, kind: u8, l: u8) -> bool
    ensures value { result ≡ (is_kind types kind && (not (kind == 254) || l == 255)) }
{
    is_kind(types, kind) && (kind != INTEGER || l == UNUSED)
}

// What rows refer to: types and constructors, and functions.
#[derive(Clone, Copy)]
pub struct Referents<'a> {
    pub shapes: Shapes,
    pub functions: Functions<'a>,
}

impl<'a> Referents<'a> {
    // Whether every number of the row that is no name and no row has a meaning.
    pub fn is_fair_row(&self, row: &Row) -> bool
        ensures value { result ≡ fair_row (record { types = self.now.shapes.types; forms = forms_of self.now.shapes; functions = functions_of self.now.functions }) row.now }
    {
        let Referents { shapes, functions } = self;
        match *row {
            Row::Region { room, .. } => (1..=32768).contains(&room),
            Row::Past { k, .. } => k <= 4,
            Row::After { t, .. } => usize::from(t) < shapes.types(),
            Row::Construct {
                form,
                l: _,
                v0,
                v1,
                v2,
                v3,
                v4,
                v5,
                v6,
                v7,
            } => shapes
                .constructor(form)
                .is_some_and(|c| is_fair_form(&c, [v0, v1, v2, v3, v4, v5, v6, v7])),
            Row::Let { kind, l, .. } => is_fair_let(shapes.types(), kind, l),
            Row::Call {
                f,
                l,
                v0,
                v1,
                v2,
                v3,
            } => functions
                .get(usize::from(f))
                .is_some_and(|g| is_fair_call(&g, l, [v0, v1, v2, v3])),
            Row::Branch { form, x0, l0, .. } => shapes
                .constructor(form)
                .is_some_and(|c| is_fair_branch(&c, x0, l0)),
            _ => true,
        }
    }
}
