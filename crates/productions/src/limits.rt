// Room for another row.

ghost use Rattle.std.specs.Prelude.{◌≡◌, true, false, length, nat_le, IfErr, OnOk};
ghost use Rattle.refusals.specs.declared.fault.RuleFault.TheVariants.{TableFull};

use plan::Table;
use refusals::RuleFault;

// Refuses a row that begins at `place` where its table is full.
pub fn room<T, const MOST: usize>(table: &Table<T, MOST>, place: usize) -> Result<(), RuleFault>
    ensures room { OnOk result (nat_le MOST (length table.now) ≡ false) }
    ensures full { IfErr result (λ e. (e ≡ TableFull place) × (nat_le MOST (length table.now) ≡ true)) }
{
    if table.is_full() {
        return Err(RuleFault::TableFull(place));
    }
    Ok(())
}
