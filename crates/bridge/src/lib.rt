// The bridge from the code to the promises: for each public step of the layer, and for its run, a function that calls it and ensures that this was a call as the
// promises speak of it. So what they speak of is held to the layer's own contracts by the checker, and a list of calls of these functions isolates.
// Parameters stand one by one, as the layer takes them.
#![tactic(auto)]

ghost use Rattle.std.specs.Prelude.{ℕ, List};
ghost use Rattle.definition.specs.Answer.{fetched};
ghost use Rattle.definition.specs.Decide.{call, event, resume, deposit, fetch};
ghost use Rattle.definition.specs.World.{own, latch};
ghost use Rattle.definition.specs.Signed.{word_of};
ghost use Rattle.types.specs.Meaning.{given_of, refusal_of};
ghost use Rattle.layer.specs.Steps.{lent, Starts};
ghost use Rattle.layer.specs.Fetching.{part_at, handed};
ghost use Rattle.bridge.specs.Calls.{Called, Hands, Locates};
ghost use Rattle.bridge.specs.Replays.{Joins};

use layer::{Place, Progress};
use types::{Answer, Driver, Process, Refusal, Registers};

// Before any step: the table becomes that of the fresh state of a board, or is refused.
pub fn start(table: &mut [u32], board: &[u32]) -> Result<Answer, Refusal>
    ensures { Starts board.now table.old (given_of result) table.new }
{
    layer::start(table, board)
}

// A call of a process: its class, and its four registers.
#[tactic(auto, using(crate::specs::Calls::called))]
pub fn call(
    table: &mut [u32],
    memory: &mut [u8],
    process: Process,
    class: u8,
    registers: Registers,
) -> Result<Answer, Refusal>
    ensures { (f : List ℕ) → Called (own process.0 (call class registers.r0 registers.r1 registers.r2 registers.r3)) (lent table.old memory.old f) (given_of result) (lent table.new memory.new f) }
{
    layer::call(table, memory, process, class, registers)
}

// A driver's event for a process's subscribe slot, with three arguments.
#[tactic(auto, using(crate::specs::Calls::evented))]
pub fn event(
    table: &mut [u32],
    process: Process,
    driver: Driver,
    slot: u32,
    argument0: u32,
    argument1: u32,
    argument2: u32,
) -> Result<Answer, Refusal>
    ensures { (m f : List ℕ) → Called (own process.0 (event driver.0 slot argument0 argument1 argument2)) (lent table.old m f) (given_of result) (lent table.new m f) }
{
    layer::event(
        table, process, driver, slot, argument0, argument1, argument2,
    )
}

// A process that waits is asked again.
#[tactic(auto, using(crate::specs::Calls::resumed))]
pub fn resume(table: &mut [u32], process: Process) -> Result<Answer, Refusal>
    ensures { (m f : List ℕ) → Called (own process.0 resume) (lent table.old m f) (given_of result) (lent table.new m f) }
{
    layer::resume(table, process)
}

// A driver's bytes for a process's read-write buffer, from an offset in it on.
#[tactic(auto, using(crate::specs::Calls::deposited))]
pub fn deposit(
    table: &[u32],
    memory: &mut [u8],
    process: Process,
    driver: Driver,
    slot: u32,
    offset: u32,
    bytes: &[u8],
) -> Result<Answer, Refusal>
    ensures { (f : List ℕ) → Called (own process.0 (deposit driver.0 slot offset bytes.now)) (lent table.now memory.old f) (given_of result) (lent table.now memory.new f) }
{
    layer::deposit(table, memory, process, driver, slot, offset, bytes)
}

// Bytes of a process's read-only buffer, from an offset in it on, in the image itself; the number goes to the caller's word, since document 01's fetch has
// a part whether it is refused or not (`Hands`).
pub fn fetch<'a>(
    table: &[u32],
    memory: &'a [u8],
    flash: &'a [u8],
    process: Process,
    driver: Driver,
    slot: u32,
    offset: u32,
    length: u32,
    number: &mut u32,
) -> &'a [u8]
    ensures { Hands (own process.0 (fetch driver.0 slot offset length)) table.now memory.entry flash.entry number.new result }
{
    *number = layer::fetch_number(table, memory, flash, process, driver, slot, offset, length);
    layer::fetch(table, memory, flash, process, driver, slot, offset, length)
}

// Where those bytes lie; the number as above (`Locates`).
#[tactic(auto, using(crate::specs::Calls::located))]
pub fn fetch_place(
    table: &[u32],
    memory: &[u8],
    flash: &[u8],
    process: Process,
    driver: Driver,
    slot: u32,
    offset: u32,
    length: u32,
    number: &mut u32,
) -> Place
    ensures { Locates (own process.0 (fetch driver.0 slot offset length)) (lent table.now memory.now flash.now) number.new result }
{
    *number = layer::fetch_number(table, memory, flash, process, driver, slot, offset, length);
    layer::fetch_place(table, memory, flash, process, driver, slot, offset, length)
}

// The number and the place together.
pub fn fetch_answer(
    table: &[u32],
    memory: &[u8],
    flash: &[u8],
    process: Process,
    driver: Driver,
    slot: u32,
    offset: u32,
    length: u32,
) -> Result<Place, Refusal>
    ensures { Called (own process.0 (fetch driver.0 slot offset length)) (lent table.now memory.now flash.now) (fetched (refusal_of result) (part_at (handed result) memory.now flash.now)) (lent table.now memory.now flash.now) }
{
    layer::fetch_answer(table, memory, flash, process, driver, slot, offset, length)
}

// A shared driver's value: a signed peak.
#[tactic(auto, using(crate::specs::Calls::latched, std::proofs::lemmas::Int::wraps))]
pub fn latch(table: &mut [u32], driver: Driver, peak: i32) -> Result<Answer, Refusal>
    ensures { (m f : List ℕ) → Called (latch driver.0 (word_of peak)) (lent table.old m f) (given_of result) (lent table.new m f) }
{
    layer::latch(table, driver, peak)
}

// The run over a trace from a place on, 0 for all of it; its lines go to the front of `out`.
#[tactic(auto, using(crate::proofs::ReplayLaws::joins))]
pub fn replay(
    trace: &[u8],
    at: usize,
    table: &mut [u32],
    memory: &mut [u8],
    flash: &[u8],
    out: &mut [u8],
) -> Progress
    ensures { Joins trace.now (lent table.old memory.old flash.now) at result (lent table.new memory.new flash.now) out.new }
{
    layer::replay(trace, at, table, memory, flash, out)
}
