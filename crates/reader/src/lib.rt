// `World::get` and `World::kind_at` over the lent table. The work is done on plain slices, in `world::find`.
#![tactic(auto)]

ghost use Rattle.std.specs.Prelude.{◌≡◌};
ghost use Rattle.world.specs.Find.{find, kind_at};

use columns::Found;
use places::Pos;
use world::find;

// The world: the packed table that its owner lends.
#[derive(Drop)]
pub struct Reader<'a> {
    table: &'a [u8],
}

impl<'a> Reader<'a> {
    pub fn new(table: &'a [u8]) -> Self
        ensures { result.table ≡ table.entry }
    {
        Reader { table }
    }

    pub fn get(self, p: Pos) -> Found
        ensures { result ≡ find self.entry.table.now p }
    {
        find::find(self.table, p)
    }

    pub fn kind_at(self, p: Pos) -> u8
        ensures { result ≡ kind_at self.entry.table.now p }
    {
        find::kind_at(self.table, p)
    }
}

// With plain parameters: whoever calls these holds no reader, and its proof walks none.
pub fn get(table: &[u8], p: Pos) -> Found
    ensures { result ≡ find table.now p }
{
    Reader::new(table).get(p)
}

pub fn kind_at(table: &[u8], p: Pos) -> u8
    ensures { result ≡ kind_at table.now p }
{
    Reader::new(table).kind_at(p)
}
