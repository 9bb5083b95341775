// A checked program: a table that the check has accepted. There is no other way to one.
ghost use Rattle.std.specs.Prelude.{◌≡◌, true, is_ok};
ghost use Rattle.table.specs.Tabled.{bytes_of};
ghost use Rattle.checker.specs.Checking.{check_of};

use table::Table;

#[derive(Clone, Copy)]
pub struct Checked<'a> {
    table: Table<'a>,
    ghost fine: { is_ok (check_of (bytes_of table)) ≡ true },
}

mod fill;
