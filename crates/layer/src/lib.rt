// The layer: its public functions take any table and any images, and answer as document 01 says. What works on a checked table is private.
// Parameters stand one by one, as in the exports of `host_c` and in the steps that the promises name.
#![tactic(auto)]

ghost use Rattle.std.specs.Prelude.{◌≡◌};
ghost use Rattle.definition.specs.Answer.{number_of};
ghost use Rattle.definition.specs.Decide.{call, event, resume, deposit, fetch};
ghost use Rattle.definition.specs.World.{own, latch};
ghost use Rattle.definition.specs.Table.{table_step};
ghost use Rattle.definition.specs.Located.{locate};
ghost use Rattle.definition.specs.Signed.{word_of};
ghost use Rattle.types.specs.Meaning.{kind_of, given_of};
ghost use Rattle.layer.specs.Steps.{lent, Makes, MakesAlone, Starts};
ghost use Rattle.layer.specs.Fetching.{part_of, IsPart, Lies, Finds};
ghost use Rattle.layer.specs.Asking.{located_of};
ghost use Rattle.layer.specs.Replaying.{Plays};

mod buffers;
mod fetches;
mod known;
mod refusals;
mod replays;
mod steps;
mod work;

use refusals::SlotName;
use replays::Lent;
use table::starts;
use table_check::checks;
use types::{Answer, Area, Driver, Image, Kind, Pair, Process, Refusal, Registers};

// Where a part of an image lies: which image, the place of its first byte there, and how many bytes it has.
#[derive(Clone, Copy)]
pub struct Place {
    pub image: Image,
    pub place: u32,
    pub length: u32,
}

// A held buffer: where it lies, and its address and size.
#[derive(Clone, Copy)]
pub struct Buffer {
    pub area: Area,
    pub pair: Pair,
}

// How far a run over a trace has come: it has ended, with so many bytes written; or it has paused for want of room before what stands at a
// place of the trace, with so many bytes written, all of them whole lines. Both cases carry what was written, so it is no Option or Result; a struct of that
// and of a place or none would be matched on as well.
#[derive(Clone, Copy)]
pub enum Progress {
    Ended(usize),
    Paused(usize, usize),
}

// A table of another length is refused with 2, then words that are no good board with 13; else the table is that of the fresh state.
pub fn start(table: &mut [u32], board: &[u32]) -> Result<Answer, Refusal>
    ensures { Starts board.now table.old (given_of result) table.new }
{
    starts::start(table, board)
}

// A call of a process: its class, and its four registers.
pub fn call(
    table: &mut [u32],
    memory: &mut [u8],
    process: Process,
    class: u8,
    registers: Registers,
) -> Result<Answer, Refusal>
    ensures { Makes (own process.0 (call class registers.r0 registers.r1 registers.r2 registers.r3)) table.old memory.old (given_of result) table.new memory.new }
{
    let formed = checks::well_formed(table);
    steps::call(table, memory, formed, process, class, registers)
}

// A driver's event for a process's subscribe slot, with three arguments.
pub fn event(
    table: &mut [u32],
    process: Process,
    driver: Driver,
    slot: u32,
    argument0: u32,
    argument1: u32,
    argument2: u32,
) -> Result<Answer, Refusal>
    ensures { MakesAlone (own process.0 (event driver.0 slot argument0 argument1 argument2)) table.old (given_of result) table.new }
{
    let formed = checks::well_formed(table);
    steps::event(
        table, formed, process, driver, slot, argument0, argument1, argument2,
    )
}

// A process that waits is asked again.
pub fn resume(table: &mut [u32], process: Process) -> Result<Answer, Refusal>
    ensures { MakesAlone (own process.0 resume) table.old (given_of result) table.new }
{
    let formed = checks::well_formed(table);
    steps::resume(table, formed, process)
}

// A driver's bytes for a process's read-write buffer, from an offset in it on.
pub fn deposit(
    table: &[u32],
    memory: &mut [u8],
    process: Process,
    driver: Driver,
    slot: u32,
    offset: u32,
    bytes: &[u8],
) -> Result<Answer, Refusal>
    ensures { Makes (own process.0 (deposit driver.0 slot offset bytes.now)) table.now memory.old (given_of result) table.now memory.new }
{
    let formed = checks::well_formed(table);
    steps::deposit(table, memory, formed, process, driver, slot, offset, bytes)
}

// The answer to a fetch, for a host that has both images: its refusal, or where its part lies.
pub fn fetch_answer(
    table: &[u32],
    memory: &[u8],
    flash: &[u8],
    process: Process,
    driver: Driver,
    slot: u32,
    offset: u32,
    length: u32,
) -> Result<Place, Refusal>
    ensures { Finds (table_step (own process.0 (fetch driver.0 slot offset length)) (lent table.now memory.now flash.now)).answer memory.now flash.now result }
{
    let formed = checks::well_formed(table);
    steps::fetch(
        table, memory, flash, formed, process, driver, slot, offset, length,
    )
}

// The number of a fetch, 0 where it is accepted: document 01 asks for it separately, and it is told whatever the fetch is.
pub fn fetch_number(
    table: &[u32],
    memory: &[u8],
    flash: &[u8],
    process: Process,
    driver: Driver,
    slot: u32,
    offset: u32,
    length: u32,
) -> u32
    ensures { result ≡ number_of (table_step (own process.0 (fetch driver.0 slot offset length)) (lent table.now memory.now flash.now)).answer }
{
    match fetch_answer(table, memory, flash, process, driver, slot, offset, length) {
        Ok(_) => 0,
        Err(refusal) => refusal.into(),
    }
}

// Bytes of a process's read-only buffer, from an offset in it on: a part of the image that the buffer lies in.
pub fn fetch<'a>(
    table: &[u32],
    memory: &'a [u8],
    flash: &'a [u8],
    process: Process,
    driver: Driver,
    slot: u32,
    offset: u32,
    length: u32,
) -> &'a [u8]
    ensures { IsPart (part_of (table_step (own process.0 (fetch driver.0 slot offset length)) (lent table.now memory.now flash.now)).answer) memory.entry flash.entry result }
{
    let fetched = fetch_answer(table, memory, flash, process, driver, slot, offset, length);
    fetches::part(memory, flash, fetches::handed(fetched))
}

// Where the part that a fetch hands back lies, for a host that is told of it in numbers.
pub fn fetch_place(
    table: &[u32],
    memory: &[u8],
    flash: &[u8],
    process: Process,
    driver: Driver,
    slot: u32,
    offset: u32,
    length: u32,
) -> Place
    ensures { Lies (part_of (table_step (own process.0 (fetch driver.0 slot offset length)) (lent table.now memory.now flash.now)).answer) result }
{
    let told = fetch_answer(table, memory, flash, process, driver, slot, offset, length);
    fetches::handed(told)
}

// A shared driver's value: a signed peak.
pub fn latch(table: &mut [u32], driver: Driver, peak: i32) -> Result<Answer, Refusal>
    ensures { MakesAlone (latch driver.0 (word_of peak)) table.old (given_of result) table.new }
{
    let formed = checks::well_formed(table);
    steps::latch(table, formed, driver, peak)
}

// Where the buffer lies that a process holds in a slot. It is no step: any table is only read.
pub fn area(
    table: &[u32],
    process: Process,
    kind: Kind,
    driver: Driver,
    slot: u32,
) -> Result<Buffer, Refusal>
    ensures { located_of result ≡ locate (kind_of kind) process.0 driver.0 slot table.now }
{
    if !checks::well_formed(table) {
        return Err(Refusal::NoTable);
    }
    let name = SlotName {
        process,
        kind,
        driver,
        number: slot,
    };
    buffers::locate(table, name)
}

// The run over a trace from a place on: 0 for all of it, or the place at which it has paused, with the table and the images as it left them.
// Its lines go to the front of `out`. A buffer of 262,167 bytes has room for the longest line, so that with it each call comes further.
pub fn replay(
    trace: &[u8],
    at: usize,
    table: &mut [u32],
    memory: &mut [u8],
    flash: &[u8],
    out: &mut [u8],
) -> Progress
    ensures { Plays trace.now (lent table.old memory.old flash.now) at out.old result (lent table.new memory.new flash.now) out.new }
{
    if at == 0 {
        return replays::begin(trace, table, memory, flash, out);
    }
    let formed = checks::well_formed(table);
    let mut lent = Lent {
        table,
        memory,
        flash,
        formed,
    };
    lent.records(trace, at, out, 0)
}
