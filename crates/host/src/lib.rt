// What a C or Rust host calls: the layer's steps on numbers and slices, where a held buffer lies, its run over a trace, and its sizes. Each takes any
// numbers and slices; a step says what it did in six words of a slice that the host lends, and the run in three.
// They give a `bool`, and take each thing by itself, for C. That there is room for the words comes first in each: nothing may be done where there is none.
// One function for that would take the step as a closure, and its clauses would have to tell of what is lent to it.
#![tactic(auto)]

ghost use Rattle.std.specs.Prelude.{◌≡◌, get_or};
ghost use Rattle.definition.specs.Decide.{call, event, resume, deposit, fetch};
ghost use Rattle.definition.specs.World.{own, latch};
ghost use Rattle.definition.specs.Signed.{word_of};
ghost use Rattle.definition.specs.Image.{well_formed};
ghost use Rattle.definition.specs.Table.{table_step, start};
ghost use Rattle.definition.specs.Located.{locate, lent_by};
ghost use Rattle.layer.specs.Steps.{lent};
ghost use Rattle.host.specs.Answers.{located_words, Writes, WritesAlone, WritesOnly, answered};
ghost use Rattle.host.specs.Runs.{Runs};
ghost use Rattle.host.specs.Sizes.{sizes};

mod answers;
mod progress;

use table::Table;
use trace::records::Board;
use types::{Driver, Image, Process, Registers};

// A limit or a size by its place in `sizes`, for who has to know whether the library is the one that a host was compiled for; 0 at any other place.
pub fn mk_size(which: u32) -> u64
    ensures { result ≡ get_or sizes which 0 }
{
    let sizes = [
        Process::MAX as u64,
        Driver::MAX as u64,
        Driver::SLOTS as u64,
        Process::QUEUE as u64,
        Table::WORDS as u64,
        Board::MAX_WORDS as u64,
        Image::BYTES as u64,
        Image::MEMORY as u64,
        Image::FLASH as u64,
    ];
    sizes.get(which as usize).copied().unwrap_or(0)
}

// Whether a lent table is well formed: any words, of any length.
pub fn mk_table_well_formed(table: &[u32]) -> bool
    ensures { result ≡ well_formed table.now }
{
    table_check::checks::well_formed(table)
}

// Makes the table that of the fresh state of a board.
#[tactic(auto, using(crate::proofs::WordLaws::told_nothing, crate::proofs::WordLaws::told_answer))]
pub fn mk_start(table: &mut [u32], board: &[u32], out: &mut [u32]) -> bool
    ensures { WritesAlone (start board.now) table.old out.old result table.new out.new }
{
    let Some(words) = out.first_chunk_mut() else {
        return false;
    };
    let started = layer::start(table, board);
    *words = answers::words_of(started);
    true
}

// A call of a process: its class, and its four registers.
#[tactic(auto, using(crate::proofs::WordLaws::told_nothing, crate::proofs::WordLaws::told_answer))]
pub fn mk_call(
    table: &mut [u32],
    memory: &mut [u8],
    process: u32,
    class: u8,
    r0: u32,
    r1: u32,
    r2: u32,
    r3: u32,
    out: &mut [u32],
) -> bool
    ensures { Writes (table_step (own process (call class r0 r1 r2 r3))) table.old memory.old out.old result table.new memory.new out.new }
{
    let Some(words) = out.first_chunk_mut() else {
        return false;
    };
    let registers = Registers { r0, r1, r2, r3 };
    let called = layer::call(table, memory, Process(process), class, registers);
    *words = answers::words_of(called);
    true
}

// A driver's event for a process's subscribe slot, with three arguments.
#[tactic(auto, using(crate::proofs::WordLaws::told_nothing, crate::proofs::WordLaws::told_answer))]
pub fn mk_event(
    table: &mut [u32],
    process: u32,
    driver: u32,
    slot: u32,
    argument0: u32,
    argument1: u32,
    argument2: u32,
    out: &mut [u32],
) -> bool
    ensures { WritesAlone (table_step (own process (event driver slot argument0 argument1 argument2))) table.old out.old result table.new out.new }
{
    let Some(words) = out.first_chunk_mut() else {
        return false;
    };
    let queued = layer::event(
        table,
        Process(process),
        Driver(driver),
        slot,
        argument0,
        argument1,
        argument2,
    );
    *words = answers::words_of(queued);
    true
}

// A process that waits is asked again.
#[tactic(auto, using(crate::proofs::WordLaws::told_nothing, crate::proofs::WordLaws::told_answer))]
pub fn mk_resume(table: &mut [u32], process: u32, out: &mut [u32]) -> bool
    ensures { WritesAlone (table_step (own process resume)) table.old out.old result table.new out.new }
{
    let Some(words) = out.first_chunk_mut() else {
        return false;
    };
    let resumed = layer::resume(table, Process(process));
    *words = answers::words_of(resumed);
    true
}

// A driver's bytes for a process's read-write buffer, from an offset in it on.
#[tactic(auto, using(crate::proofs::WordLaws::told_nothing, crate::proofs::WordLaws::told_answer))]
pub fn mk_deposit(
    table: &[u32],
    memory: &mut [u8],
    process: u32,
    driver: u32,
    slot: u32,
    offset: u32,
    bytes: &[u8],
    out: &mut [u32],
) -> bool
    ensures { Writes (table_step (own process (deposit driver slot offset bytes.now))) table.now memory.old out.old result table.now memory.new out.new }
{
    let Some(words) = out.first_chunk_mut() else {
        return false;
    };
    let deposited = layer::deposit(
        table,
        memory,
        Process(process),
        Driver(driver),
        slot,
        offset,
        bytes,
    );
    *words = answers::words_of(deposited);
    true
}

// Where the bytes of a process's read-only buffer lie, from an offset in it on: the host reads them there, and nothing is copied.
#[tactic(auto, using(crate::proofs::WordLaws::told_nothing, crate::proofs::WordLaws::told_fetched))]
pub fn mk_fetch(
    table: &[u32],
    memory: &[u8],
    flash: &[u8],
    process: u32,
    driver: u32,
    slot: u32,
    offset: u32,
    length: u32,
    out: &mut [u32],
) -> bool
    ensures { WritesOnly (table_step (own process (fetch driver slot offset length))) table.now memory.now flash.now out.old result out.new }
{
    let Some(words) = out.first_chunk_mut() else {
        return false;
    };
    let fetched = layer::fetch_answer(
        table,
        memory,
        flash,
        Process(process),
        Driver(driver),
        slot,
        offset,
        length,
    );
    *words = answers::words_fetched(fetched);
    true
}

// A shared driver's value: a signed peak.
#[tactic(auto, using(crate::proofs::WordLaws::told_nothing, crate::proofs::WordLaws::told_answer, std::proofs::lemmas::Int::wraps))]
pub fn mk_latch(table: &mut [u32], driver: u32, peak: i32, out: &mut [u32]) -> bool
    ensures { WritesAlone (table_step (latch driver (word_of peak))) table.old out.old result table.new out.new }
{
    let Some(words) = out.first_chunk_mut() else {
        return false;
    };
    let latched = layer::latch(table, Driver(driver), peak);
    *words = answers::words_of(latched);
    true
}

// Where the buffer lies that a process holds in a slot of a driver. The class is that of the allow that lends it, 3 or 4.
#[tactic(auto, using(crate::proofs::WordLaws::asked_nothing, crate::proofs::WordLaws::asked_answer))]
pub fn mk_area(
    table: &[u32],
    process: u32,
    class: u8,
    driver: u32,
    slot: u32,
    out: &mut [u32],
) -> bool
    ensures { answered (located_words (locate (lent_by class) process driver slot table.now)) out.old ≡ (result, out.new) }
{
    let Some(words) = out.first_chunk_mut() else {
        return false;
    };
    let kind = answers::lent_by(class);
    let located = layer::area(table, Process(process), kind, Driver(driver), slot);
    *words = answers::words_located(located);
    true
}

// The run over a trace from a place on, 0 for all of it; its lines go to the front of `lines`.
#[tactic(auto, using(crate::proofs::RunLaws::runs_nothing))]
pub fn mk_replay(
    trace: &[u8],
    at: usize,
    table: &mut [u32],
    memory: &mut [u8],
    flash: &[u8],
    lines: &mut [u8],
    out: &mut [u64],
) -> bool
    ensures { Runs trace.now (lent table.old memory.old flash.now) at lines.old out.old result (lent table.new memory.new flash.now) lines.new out.new }
{
    let Some(words) = out.first_chunk_mut() else {
        return false;
    };
    let played = layer::replay(trace, at, table, memory, flash, lines);
    *words = progress::words_of(played);
    true
}
