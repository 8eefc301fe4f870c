// Held buffers of a checked table: where one lies, for a fetch and for a host that asks.
// `Holds` stays a clause, for the reason that stands in `table/src/lib.rt`.
ghost use Rattle.std.specs.Prelude.{◌≡◌, ◌<◌, get_or};
ghost use Rattle.definition.specs.Board.{areas_at};
ghost use Rattle.definition.specs.Area.{area_of};
ghost use Rattle.definition.specs.World.{process_at};
ghost use Rattle.definition.specs.Image.{state_of};
ghost use Rattle.definition.specs.Located.{located};
ghost use Rattle.types.specs.Meaning.{kind_of, pair_of, area_named};
ghost use Rattle.table.specs.Tables.{Holds};
ghost use Rattle.layer.specs.Asking.{located_of};

use super::Buffer;
use super::refusals::{self, SlotName};
use board::buffers;
use table::runs;
use types::{Area, Pair, Process, Refusal};

// Where a pair lies that a process holds.
#[tactic(auto, using(crate::proofs::BufferLaws::lies_so, crate::proofs::ReadLaws::areas_here))]
pub(crate) fn area_of(table: &[u32], process: Process, pair: Pair) -> Area
    requires { Holds table.now × (process.0 < get_or table.now 0 0) }
    ensures { area_named result ≡ area_of (areas_at (state_of table.now).board process.0) (process_at (state_of table.now) process.0).break (pair_of pair) }
{
    let areas = table::board_of(table).areas(process);
    let brk = runs::brk(table, process);
    buffers::area_of(areas, brk, pair)
}

// The answer to a host that asks where a held buffer lies.
pub(crate) fn locate(table: &[u32], name: SlotName) -> Result<Buffer, Refusal>
    requires { Holds table.now }
    ensures { located_of result ≡ located (kind_of name.kind) name.process.0 name.driver.0 name.number (state_of table.now) }
{
    let slot = refusals::question(table, name)?;
    let pair = runs::held(table, name.process, slot);
    let area = area_of(table, name.process, pair);
    Ok(Buffer { area, pair })
}
