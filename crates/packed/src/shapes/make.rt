// Shapes made from descriptions, and what they answer.
ghost use Rattle.std.specs.Prelude.{◌≡◌, ◌≤◌, ◌&&◌, false, not, length, take, sum, nat_eq, nat_le, nat_lt, position, is_some, IfSome, IfOk, None, Ok, Err};
ghost use Rattle.std.specs.List.{slice_get};
ghost use Rattle.packed.specs.Forms.{either, all, fair, fields_limit, form_at, limit_of, numbered, size_limit, total};
ghost use Rattle.packed.specs.Packing.{integers_of};
ghost use Rattle.packed.specs.Shaped.{broken, forms_of, sizes_of};

use super::Shapes;
use crate::constructor::{
    Constructor, Fields, Limit, MAX_CONSTRUCTORS, MAX_INTEGERS, MAX_SIZE, MAX_SUBTREES, MAX_TYPES,
    NO_TYPE,
};

// What fills the places behind the last constructor.
const UNUSED: Constructor = Constructor {
    of: 0,
    fields: Fields {
        integers: 0,
        subtrees: 0,
        types: [NO_TYPE; 4],
    },
};

// The first size that is not one of 1 to 16.
fn first_missized(sizes: &[u8]) -> Option<usize>
    ensures { result ≡ position (λ n. not (nat_le 1 n && nat_le n 16)) sizes.now }
{
    sizes.iter().position(|size| !(1..=MAX_SIZE).contains(size))
}

// How many constructors types of these sizes have.
// (At most 16 sizes is asked by each below: a type for a lent slice would be made for these four alone.)
fn sum_of(sizes: &[u8]) -> usize
    requires { length sizes.now ≤ 16 }
    ensures { result ≡ sum sizes.now }
{
    sizes.iter().map(|size| usize::from(*size)).sum()
}

// The same, and refuses the first size that is not one of 1 to 16.
fn total_of(sizes: &[u8]) -> Result<usize, Limit>
    requires { length sizes.now ≤ 16 }
    ensures { result ≡ either (size_limit 0 sizes.now) (Ok (total sizes.now)) Err }
{
    match first_missized(sizes) {
        Some(of) => Err(Limit::TypeSize { of }),
        None => Ok(sum_of(sizes)),
    }
}

// Whether each of these places of subtrees names a type.
fn name_types(places: &[u8], types: usize) -> bool
    ensures { result ≡ all (λ t. nat_lt t types) places.now }
{
    places.iter().all(|ty| usize::from(*ty) < types)
}

// Whether each of these places holds 255.
fn are_blank(places: &[u8]) -> bool
    ensures { result ≡ all (λ t. nat_eq t 255) places.now }
{
    places.iter().all(|ty| *ty == NO_TYPE)
}

// Whether there are at most four integers and four subtrees, each place of a subtree names a type,
// and each place behind holds 255.
fn is_fair(fields: &Fields, types: usize) -> bool
    ensures { result ≡ fair types fields.now }
{
    if fields.integers > MAX_INTEGERS || fields.subtrees > MAX_SUBTREES {
        return false;
    }
    let (named, behind) = fields.types.split_at(usize::from(fields.subtrees));
    name_types(named, types) && are_blank(behind)
}

// The first constructor whose fields are not fair.
fn first_unfair(fields: &[Fields], types: usize) -> Option<usize>
    ensures { result ≡ position (λ f. not (fair types f)) fields.now }
{
    fields.iter().position(|one| !is_fair(one, types))
}

// Refuses the first constructor whose fields are not fair.
fn test_fields(fields: &[Fields], types: usize) -> Result<(), Limit>
    ensures { result ≡ either (fields_limit types 0 fields.now) (Ok tt) Err }
{
    match first_unfair(fields, types) {
        Some(number) => Err(Limit::Constructor { number }),
        None => Ok(()),
    }
}

// The constructors with these fields: each type in turn takes as many as its size says.
fn number(sizes: &[u8], fields: &[Fields]) -> [Constructor; MAX_CONSTRUCTORS]
    requires some { 1 ≤ length sizes.now }
    requires few { length sizes.now ≤ 16 }
    requires sized { is_some (size_limit 0 sizes.now) ≡ false }
    requires count { total sizes.now ≡ length fields.now }
    requires most { length fields.now ≤ 64 }
    ensures room { length result ≡ 64 }
    ensures filled { take (length fields.now) result ≡ numbered 0 sizes.now fields.now }
{
    let mut constructors = [UNUSED; MAX_CONSTRUCTORS];
    // The type that takes constructors, and how many of its own are still to come. (A chain is no plainer: each size
    // repeated as often as it says and flattened, zipped with the fields and with the places.)
    let mut of: u8 = 0;
    let mut left = sizes[0];
    for (i, one) in fields.iter().enumerate() {
        if left == 0 {
            of += 1;
            left = sizes[usize::from(of)];
        }
        constructors[i] = Constructor { of, fields: *one };
        left -= 1;
    }
    constructors
}

// The sizes, in an array that has room for all.
fn padded(sizes: &[u8]) -> [u8; MAX_TYPES]
    requires { length sizes.now ≤ 16 }
    ensures room { length result ≡ 16 }
    ensures front { take (length sizes.now) result ≡ sizes.now }
{
    let mut all = [0; MAX_TYPES];
    all[..sizes.len()].copy_from_slice(sizes);
    all
}

impl Shapes {
    // Shapes of the types that have these sizes, over constructors with these fields, numbered through all types.
    pub fn new(sizes: &[u8], fields: &[Fields]) -> Result<Shapes, Limit>
        ensures value { broken result ≡ limit_of sizes.now fields.now }
        ensures made { IfOk result (λ s. (sizes_of s ≡ sizes.now) × (forms_of s ≡ numbered 0 sizes.now fields.now)) }
    {
        if sizes.is_empty() || sizes.len() > MAX_TYPES {
            return Err(Limit::TypeCount);
        }
        if total_of(sizes)? != fields.len() || fields.len() > MAX_CONSTRUCTORS {
            return Err(Limit::ConstructorCount);
        }
        test_fields(fields, sizes.len())?;
        Ok(Shapes::described(sizes, fields))
    }

    // Shapes of a description that breaks no limit.
    fn described(sizes: &[u8], fields: &[Fields]) -> Shapes
        requires { limit_of sizes.now fields.now ≡ None }
        ensures sized { sizes_of result ≡ sizes.now }
        ensures formed { forms_of result ≡ numbered 0 sizes.now fields.now }
    {
        Shapes {
            sizes: padded(sizes),
            types: sizes.len(),
            constructors: number(sizes, fields),
            count: fields.len(),
        }
    }

    // How many types there are.
    pub fn types(&self) -> usize
        ensures value { result ≡ self.now.types }
        ensures len { result ≡ length (sizes_of self.now) }
    {
        self.types
    }

    // The constructor of this number, if it is one of type `ty`.
    pub fn form(&self, ty: u8, number: u8) -> Option<Constructor>
        ensures value { result ≡ form_at (forms_of self.now) ty number }
        ensures cases { IfSome result (λ c. (c.fields.integers ≤ 4) × (c.fields.subtrees ≤ 4)) }
    {
        self.constructor(number)
            .filter(|constructor| constructor.of == ty)
    }

    // How many integers the constructor of this number has; 0 where there is none.
    pub fn integers(&self, number: u8) -> u8
        ensures value { result ≡ integers_of (forms_of self.now) number }
        ensures bound { result ≤ 4 }
    {
        self.constructor(number)
            .map_or(0, |constructor| constructor.fields.integers)
    }

    // The constructors, by number.
    pub fn forms(&self) -> &[Constructor]
        ensures { result.now ≡ forms_of self.now }
    {
        &self.constructors[..self.count]
    }

    // The constructor of this number, if there is one.
    pub fn constructor(&self, number: u8) -> Option<Constructor>
        ensures value { result ≡ slice_get (forms_of self.now) number }
        ensures cases { IfSome result (λ c. (c.fields.integers ≤ 4) × (c.fields.subtrees ≤ 4)) }
    {
        self.forms().get(usize::from(number)).copied()
    }
}
