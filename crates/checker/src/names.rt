// Tables by name: what a name stands for, where it is in range.
ghost use Rattle.std.specs.Prelude.{◌≡◌, ℕ, ◌+◌, ◌<◌, ◌&&◌, set, nat_le, nat_lt};
ghost use Rattle.checker.specs.Contexts.{at, fresh, is_in, all_fresh, entered_names};

// What the name stands for, if anything.
pub fn look<T: Copy>(table: &[Option<T>], name: usize) -> Option<T>
    ensures value { result ≡ at table.now name }
{
    table.get(name).copied().flatten()
}

// Whether the name is in range and stands for nothing.
pub fn is_fresh<T: Copy>(table: &[Option<T>], name: usize) -> bool
    ensures value { result ≡ fresh table.now name }
{
    table.get(name).is_some_and(|entry| entry.is_none())
}

// Whether the name is in the set.
pub fn is_member(set: &[bool], name: usize) -> bool
    ensures value { result ≡ is_in set.now name }
{
    set.get(name).copied().unwrap_or(false)
}

// Has the name, if it is in range, stand for this. (By its index: behind a slice's get_mut a proof knows the length alone.)
pub fn enter<T: Copy>(table: &mut [T], name: usize, entry: T)
    ensures after { table.new ≡ set table.old name entry }
{
    if name < table.len() {
        table[name] = entry;
    }
}

// Whether the name is one of `count` from `first` on.
pub fn is_among(name: u16, first: u16, count: u8) -> bool
    ensures value { result ≡ (nat_le first name && nat_lt name (first + count)) }
{
    let first = u32::from(first);
    (first..first + u32::from(count)).contains(&u32::from(name))
}

// Whether `count` names from `first` on are all in range and stand for nothing. (By name: with no name to bind, `first` may
// lie past the table's end.)
pub fn are_fresh<T: Copy>(table: &[Option<T>], first: usize, count: usize) -> bool
    requires { (first < 65536) × (count < 65536) }
    ensures value { result ≡ all_fresh table.now first 0 count }
{
    (first..first + count).all(|name| is_fresh(table, name))
}

// Has `count` names from `first` on stand for what `entry` says of the first, the second and so on. (By name, since names
// past the table's end may be meant: for a part of the slice both its ends would have to be clipped.)
pub fn enter_names<T: Copy, F: Fn(usize) -> T>(
    table: &mut [T],
    first: usize,
    count: usize,
    entry: F,
)
    requires small { (first < 65536) × (count < 65536) }
    requires callable { (i : ℕ) → i < count → F.pre entry i }
    ensures after { (v : ℕ → T) → ((i : ℕ) (x : T) → i < count → F.post entry i x → x ≡ v i) → table.new ≡ entered_names table.old first v 0 count }
{
    for i in 0..count {
        enter(table, first + i, entry(i));
    }
}
