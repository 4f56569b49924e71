//! Tables of the number that was put last under each number.

ghost use Rattle.std.specs.Prelude.{◌≡◌, ℕ, OnOk};
ghost use Rattle.er_numbers.specs.Numbers.{found};
ghost use Rattle.er_latest.specs.Tables.{HasPlace, put_last};

use er_io::NoMemory;
use er_numbers::Numbers;

/// Makes room for this number, if there is one.
pub(crate) fn make_room(table: &mut Numbers<u32>, number: Option<u32>) -> Result<(), NoMemory>
    ensures kept { (k : ℕ) → found table.new k ≡ found table.old k }
    ensures room { OnOk result (HasPlace table.new number) }
{
    match number {
        Some(number) => table.make_room(number),
        None => Ok(()),
    }
}

/// Puts a value under a number, if there is one.
pub(crate) fn put(table: &mut Numbers<u32>, number: Option<u32>, value: u32)
    requires room { HasPlace table.old number }
    ensures { (k : ℕ) → found table.new k ≡ put_last number value k (found table.old k) }
{
    if let Some(number) = number {
        table.put(number, value);
    }
}
