// A cell as a run keeps it: with key 0 put into its set where the cell lacks it, and taken out where the cell has it. So the first cell is all zeros, and
// the 1,024 cells that a run starts with are filled at once.
ghost use Rattle.std.specs.Prelude.{◌≡◌};
ghost use Rattle.run_engine.specs.Inner.Kept.{turned_of, keep_of, restore_of, kept_first};

use run_keys::KeySet;
use run_state::Cell;

#[derive(Clone, Copy)]
pub struct Kept {
    pub keys: KeySet,
    pub value: u32,
    pub key: u32,
}

// The set with key 0 put in or taken out.
fn turned(keys: KeySet) -> KeySet
    ensures { result ≡ turned_of keys }
{
    KeySet {
        w0: keys.w0 ^ 1,
        w1: keys.w1,
        w2: keys.w2,
        w3: keys.w3,
    }
}

// The first cell, all zeros: null, with key 0.
pub fn zeros() -> Kept
    ensures { result ≡ kept_first }
{
    let none = KeySet::new();
    Kept {
        keys: none,
        value: 0,
        key: 0,
    }
}

pub fn keep(cell: Cell) -> Kept
    ensures { result ≡ keep_of cell }
{
    let keys = turned(cell.keys);
    Kept {
        keys,
        value: cell.value,
        key: cell.key,
    }
}

pub fn restore(kept: Kept) -> Cell
    ensures { result ≡ restore_of kept }
{
    let keys = turned(kept.keys);
    Cell {
        keys,
        value: kept.value,
        key: kept.key,
    }
}
