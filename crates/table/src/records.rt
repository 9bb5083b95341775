// Records of one kind, one behind the other.
ghost use Rattle.std.specs.Prelude.{◌≡◌, ◌*◌, length, cond, nat_lt, None};
ghost use Rattle.table.specs.Meaning.{record_at};

use crate::record::Record;
use std::alloc::AllocError;
use std::marker::PhantomData;

pub struct Records<'a, R: Record> {
    bytes: &'a [u8],
    count: usize,
    kind: PhantomData<R>,
    ghost sized: { length bytes.now ≡ count * R.WIDTH },
}

// By hand: a derive is refused on a generic struct with a ghost field.
impl<'a, R: Record> Clone for Records<'a, R> {
    fn clone(&self) -> Result<Records<'a, R>, AllocError> {
        Ok(*self)
    }
}

impl<'a, R: Record> Copy for Records<'a, R> {}

impl<'a, R: Record> Records<'a, R> {
    // The records that these bytes are.
    pub fn of(bytes: &'a [u8], count: usize) -> Records<'a, R>
        requires sized { length bytes.now ≡ count * R.WIDTH }
        ensures counted { result.count ≡ count }
        ensures value { result.bytes.now ≡ bytes.now }
    {
        Records {
            bytes,
            count,
            kind: PhantomData,
        }
    }

    // How many there are.
    pub fn len(&self) -> usize
        ensures value { result ≡ self.now.count }
    {
        self.count
    }

    // What record n describes, if it is there and does.
    pub fn get(&self, n: usize) -> Option<R>
        ensures value { result ≡ cond (nat_lt n self.now.count) (record_at R.WIDTH R.item self.now.bytes.now n) None }
    {
        if n >= self.count {
            return None;
        }
        R::described(&self.bytes[n * R::WIDTH..(n + 1) * R::WIDTH])
    }
}
