// A loader, with all the memory that a load can need.

ghost use Rattle.std.specs.Prelude.{◌≤◌, vec_capacity};

use plan::Tables;

mod loading;
mod making;

// What the tables and the text hold between two loads is of no account.
#[derive(Drop)]
pub struct Loader {
    tables: Tables,
    text: Vec<u8>,
    ghost room: { 65536 ≤ vec_capacity text },
}
